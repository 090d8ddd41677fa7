//! A directory as a list of entries; and, as definitions, that list as bytes, what a name finds, and what each operation on a
//! directory gives. Whoever works on directories, and the laws of all that is told of them, stand on this room. It knows nothing of
//! versions, of sites that meet or of who asks.
#![tactic(auto)]

mod directory;
mod entry;
mod looking;
mod place;

pub use directory::Dir;
pub use entry::{Entry, entry_cmp, is_live};
pub use field_codec::locus_ids;
pub use looking::LookResult;
pub use trace_book;
pub use version_vector;
