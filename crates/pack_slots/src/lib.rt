//! The slots of a pack: what an area of a disk says of its inodes, how it is formatted and surveyed, and how of two open slots
//! the losing one is closed. Packs call it. It knows bytes, slots and tables, and nothing of what is committed, nor of other sites.
#![tactic(auto)]

mod closing;
mod formatting;
mod inode_copy;
mod inodes;
mod mount_fault;
mod slots;
mod superblock;
mod survey;
mod tables;
mod uses;

pub use closing::close_losing;
pub use formatting::format;
pub use inode_copy::InodeCopy;
pub use mount_fault::MountFault;
pub use survey::{Survey, read_pack};
pub use uses::used_tables;
