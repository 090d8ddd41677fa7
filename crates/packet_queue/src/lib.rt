//! The numbers of packets under way, threaded circuit by circuit: the least one on a circuit that is up is found without a
//! walk through the others. The mail stands on this room. It knows no packet, only numbers, circuits and marks.
#![tactic(auto)]

mod queue;
mod tables;

pub use queue::{NUMBERS, PacketQueue};
pub use tables::filled;
