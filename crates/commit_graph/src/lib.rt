//! Versions of files and how they stand to each other: which is an ancestor of which, which are kept, and the vector that
//! each is written with. The trace, the table of copies and the tree speak of versions by these definitions. Nothing here
//! knows of vectors that a site keeps, of disks or of sites that run.
#![tactic(auto)]

mod ancestors;
mod history;

pub use ancestors::{is_ancestor, kept};
pub use history::{History, Version};
