//! A site's place in epochs: what it has promised, the round of polls that it began, the epoch that it is in, and what it
//! sends again until it is answered. Each call is that part of what the site does; where the site leaves or joins an epoch, the
//! answer tells it, and what the other roles do then is theirs. It knows nothing of files, instances or calls.
#![tactic(auto)]

mod errors;
mod joining;
mod laws;
mod links;
mod packets;
mod polling;
mod repeats;
mod state;

pub use errors::EpochError;
pub use joining::InstallAnswer;
pub use laws::{joining_by_parts, leaving_by_parts, passing_by_parts, quiet_by_parts};
pub use packets::FormingHeader;
pub use state::EpochState;
