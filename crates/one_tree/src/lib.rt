//! The one tree of an epoch and a group, held against the records of a trace: of each record it says whether it is the step
//! that one tree gives after the records before it. Whoever judges a trace stands on this room. It keeps what later steps
//! ask of the records and not the records, and it must never know who wrote them.
#![tactic(auto)]

mod applied;
mod steps;
mod tree;

pub use applied::{Applied, TreeFault};
pub use tree::OneTree;
