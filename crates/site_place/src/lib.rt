//! A site as it stands in the world: it runs, with its node and its disk, or it stands stopped, with its disk; and the script that is
//! armed for its disk calls. The world stands on this room. It knows no other site, no circuit and no packet under way.
#![tactic(auto)]

mod acting;
mod counted_disk;
mod event;
mod fault;
mod place;
mod script;
mod telling;

pub use event::SiteEvent;
pub use fault::{PlaceFault, StartFault};
pub use place::SitePlace;
pub use script::{CallCut, DiskScript};
