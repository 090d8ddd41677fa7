//! What a site does that is notified of a version: it asks a holder which pages of it differ from its own copy, pulls these one after
//! the other, and adopts the version once they are there. It knows nothing of what else the site has: its own copy, the room on its
//! disk and the open instances come in as answers of others.
#![tactic(auto)]

mod adopting;
mod own_copy;
mod puller;
mod pulling;

pub use adopting::{Adopting, adoptions_are_choices};
pub use own_copy::{CopyHead, fits_own};
pub use puller::Puller;
pub use pulling::is_complete;
