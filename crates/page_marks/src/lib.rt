//! Which pages of a version are new, and what hangs on them: the marks of pages that a call changed or that came from another
//! site, whether pages that came may be laid over the copy so far, and how many tables of page numbers are written. The packs of
//! a site call it. It reads and writes no disk, and knows nothing of inodes, slots or data pages.
#![tactic(auto)]

mod laying;
mod marking;
mod tables;

pub use laying::laid_marks;
pub use marking::marks_of;
pub use tables::{pages_before, size_of, tables_written};
