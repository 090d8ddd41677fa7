//! The opens that using sites asked a synchronization site for: a table in the order in which they came, found by instance,
//! with those that are open now at hand; and what is sent and told of an open. It knows nothing of files and versions, and
//! decides no open.
#![tactic(auto)]

mod entry;
mod now;
mod opens;

pub use entry::{Closing, OpenEntry, Progress, Settling};
pub use now::OpenNow;
pub use opens::Opens;
