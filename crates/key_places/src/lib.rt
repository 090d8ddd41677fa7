//! Where keys stand that came one after another: the index beside a table of rows that only grows. A key is four numbers,
//! and each kind of name has a key of its own form. Nothing here knows what the rows are.
#![tactic(auto)]

mod all_places;
mod key;
mod places;
mod recent;

pub use key::{Key, call_key, epoch_key, file_key, number_key, serial_key, version_key};
pub use places::Places;
