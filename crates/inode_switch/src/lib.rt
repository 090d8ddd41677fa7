//! Inodes on a disk: a version of an inode replaces the one before it wholly or not at all, whenever a crash comes. Packs call
//! it. It knows slots and data pages as bytes, and nothing of sites, instances or epochs.
#![tactic(auto)]

mod closing;
mod replacing;

pub use closing::close_losing_gate;
pub use replacing::replace_inode;
