//! What the records of a trace tell, and what the one tree of an epoch and a group is by them: its state as a value, what it
//! gives next, and what becomes of it. The laws of traces and every program that follows a tree stand on these definitions.
//! There is no running part in this room, and it knows nothing of packets, disks or of how sites talk.
#![tactic(auto)]

mod accepted;
mod copy;
mod instance;

pub use accepted::{AcceptedCall, Waiting};
pub use copy::HeldCopy;
pub use file_effects;
pub use instance::{Granted, Instance};
