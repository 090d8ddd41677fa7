//! What an audit knows of sites and of files: for each site whether it runs, its boot, its epoch, its descriptors and the versions that
//! it has; for each file what the call said that made it. Each table is seen exactly as the past of the records has it. An audit's state
//! and its rules call this room; it must never know which record may come.
#![tactic(auto)]

mod beginning;
mod copies;
mod makings;
mod names;
mod rows;
mod site;
mod starting;

pub use audit_copies;
pub use makings::{MakingRow, Makings};
pub use rows::SiteRows;
pub use site::SiteRow;
