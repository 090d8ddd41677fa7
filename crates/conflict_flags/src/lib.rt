//! Which copies of a file are in conflict, and a table of copies of one file with its history, on which vectors and
//! ancestry are proved to say the same. The laws of versions in every run stand on its definitions, and nothing runs it but
//! tests. It knows nothing of packets, disks or contents.
#![tactic(auto)]

mod events;
mod held;
mod laws;
mod table;

pub use events::{Event, play};
pub use held::{Held, HeldList, maxima, two_beside};
pub use laws::vectors_tell_ancestors;
pub use table::{CopyTable, TABLE_FILE, TableFault};
