//! The join of directories' contents whatever they are, also where an inode is a file in one of them and a directory in
//! another, and the bytes of its rescue. Whoever judges what others did to a directory stands on this room. It knows nothing
//! of versions, and keeps nothing.
#![tactic(auto)]

mod directory;
mod joining;
mod spelling;

pub use directory::MixedDir;
