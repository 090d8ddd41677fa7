//! Fields of bytes: readers that say where a field is short or out of range, and writers that add a field at the end.
//! The packets and directories of the product are read and written by it, slots are read. It knows none of these: what it offers
//! besides is a way to say them, in `specs/`, as codecs made of codecs, whose two laws (what is read is spelled so, what is
//! spelled so is read) then come from those of the parts.
#![tactic(auto)]

mod faults;
mod fields;
mod put;
mod table;

pub use faults::{FieldFault, ReadError};
pub use fields::Fields;
pub use locus_ids;
pub use put::{put_slice, put_u8, put_u16, put_u32};
pub use table::Table;
