//! The packs of one site on its disk, seen as copies of files: a file with its kind, set, stamp, vector and content, ascending
//! by group and inode. Storage sites and the site itself call it. Nobody above it speaks of slots, data pages or areas, and it
//! knows nothing of instances, packets or other sites.
#![tactic(auto)]

mod admitting;
mod committing;
mod faults;
mod formatting;
mod groups;
mod heads;
mod keeping;
mod live_marks;
mod mounting;
mod noting;
mod numbers;
mod packs;
mod pages;
mod planning;
mod reading;
mod scanning;
mod shut_gates;
mod storing;

pub use faults::{CommitFault, ReadFault, WriteSize};
pub use inode_pack::{LaidPages, NewVersion};
pub use pack_slots::MountFault;
pub use packs::SitePacks;
