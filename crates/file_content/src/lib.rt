//! What the content of a file is: its bytes, its pages, what a write or a read makes of them, and which pages a change
//! touches. Packs, working copies and the operations of an open file stand on this room. It knows nothing of directories,
//! versions, disks or of who asks.
#![tactic(auto)]

mod changed;
mod pages;
mod reading;
mod writing;

pub use changed::{pages_needed, pages_within, with_pages};
pub use locus_ids;
pub use pages::{page_of, pages_of, pages_replaced, pages_written};
pub use reading::{part, part_of};
pub use writing::written;
