//! What a synchronization site knows of the files of its group: the versions that were brought or published, which of them
//! are kept, and which member holds which. It knows nothing of opens, looks or packets.
#![tactic(auto)]

mod file;
mod files;
mod holders;
mod kept;
mod lists;

pub use file::KnownFile;
pub use files::Files;
pub use holders::{choose, is_among};
pub use kept::{has_stamp, joined_vectors, stamps_of};
pub use lists::Listed;
