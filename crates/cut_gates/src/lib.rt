//! Which gate a write leaves open that was cut off, so that what was told of its version counts or not. The crate knows nothing of sites, or
//! of where on a disk a gate stands.
#![tactic(auto)]

mod gates;

pub use gates::is_new_open;
