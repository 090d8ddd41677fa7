//! The layout of a disk: where the areas of packs, their slots, their tables and their data pages stand, and the bytes of
//! a slot, which says all of one inode, and of a table, which names pages that the slot has no room for. Only the code that mounts packs and commits to them calls it. It reads and writes no disk.
#![tactic(auto)]

mod check;
mod half;
pub mod layout;
mod places;
mod read;
mod slot;
mod tables;
mod write;

pub use check::{are_apart, are_none};
pub use half::Half;
pub use places::{area_at, disk_len, nth_inode, page_at, slot_at, table_at};
pub use read::read_slot;
pub use slot::{BadSlot, Slot, newer};
pub use tables::{read_table, write_table};
pub use write::{write_body, write_fields};
