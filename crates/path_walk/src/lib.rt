//! How a path is read and walked: its components, the mounts that are passed on the way, and where a walk stands once its
//! looks were answered so far. The scripts of calls stand on this room. It asks nothing itself, and knows nothing of packets
//! or of what a directory has.
#![tactic(auto)]

mod grammar;
mod mounts;
mod pieces;
mod walking;

pub use grammar::{is_name, is_path, plain_name};
pub use mounts::{is_first_root, is_mounted, mounted, mounted_in, root_of};
pub use pieces::{components, last_of, without_last};
pub use walking::{Walked, walk};
