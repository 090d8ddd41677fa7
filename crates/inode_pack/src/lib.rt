//! A pack: the part of a filegroup that a site stores, in an area of its disk. It is mounted, read, committed to and adopted
//! into. Storage sites call it. It knows inodes, slots and data pages, and nothing of other sites, instances or epochs.
#![tactic(auto)]

mod commit;
mod data_pages;
mod mount;
mod new_pages;
mod new_tables;
mod next_ino;
mod pack;
mod pack_fault;
mod pages;
mod pieces;
mod plan;
mod usage;

pub use new_contents::LaidPages;
pub use next_ino::Inos;
pub use pack::Pack;
pub use pack_fault::PackFault;
pub use stored_versions::NewVersion;
