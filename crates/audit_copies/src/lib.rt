//! Versions of files as an audit keeps them: what a site has, and which versions an epoch knows, in order. The tables of
//! sites and of epochs stand on this room. It knows nothing of records, of who has a version or of what is in it.
#![tactic(auto)]

mod copy_row;
mod file_rows;
mod known;
mod site_ends;

pub use copy_row::CopyRow;
pub use known::Known;
