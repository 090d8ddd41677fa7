//! The scripts of calls in code: where a call begins by its descriptor, and by its words, where it began and what its requests
//! were answered so far, what a call asks next, or its reply. The using site and the audit ask it. It knows nothing of packets,
//! of descriptors' tables or of what a tree has.
#![tactic(auto)]

mod beginning;
mod opening;
mod paths;
mod reaching;
mod script;
mod showing;
mod words;

pub use beginning::{
    begins_change, begins_close, begins_open, begins_read, begins_walk, is_past_greatest,
};
pub use script::Script;
