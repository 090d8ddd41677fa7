//! Tables of rows that have keys: lists in ascending order, and lists in the order in which their rows came. Each call is
//! one of the functions by which the roles' definitions read and change a table. This room knows nothing of what the rows
//! are for; it only gives each kind of row its key.
#![tactic(auto)]

mod index;
mod keys;
mod rows;
mod short;
mod sorted;

pub use index::KeyIndex;
pub use keys::{Keyed, descriptor_key, file_key, process_key, serial_key, stamp_key, waiting_key};
pub use rows::{find, place_in, put};
pub use short::{find_first, put_first};
pub use sorted::SortedTable;
