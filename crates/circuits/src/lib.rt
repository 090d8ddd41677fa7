//! Circuits between sites: the number of each, and which are cut. The mail and the run of a schedule stand on this room. It
//! knows no packet and no site's step.
#![tactic(auto)]

mod cut;
mod numbers;

pub use cut::{Circuit, CutCircuits};
pub use numbers::{circuit_of, receiver_on, sender_on};
