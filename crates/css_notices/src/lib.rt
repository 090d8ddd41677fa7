//! Whom a synchronization site notifies of a version of a file, and which members there are of a set of sites. It knows
//! nothing of opens or looks.
#![tactic(auto)]

mod members;
mod notices;

pub use css_versions;
pub use members::members_of;
pub use notices::{notify_again, notify_all, notify_lagging};
