//! A disk as the storage above it sees it: bytes that are read and written at a place, and a `sync`. It says what a
//! crash may leave at each moment, and stands in for a real disk in two ways: one that a script stops or makes fail,
//! and one that keeps each call. The packs and the runner call it. It knows nothing of packs, inodes or sites.
#![tactic(auto)]

mod chunk;
mod disk;
mod record_disk;
mod script;
mod script_disk;
mod sparse_bytes;
mod store;

pub use disk::{Disk, DiskFault};
pub use record_disk::RecordDisk;
pub use script::{Fired, Leave};
pub use script_disk::ScriptDisk;
