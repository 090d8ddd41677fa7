//! What an open instance decides at its storage site before it acts: what the operation of a number asks of it, and the vector of the
//! version that it commits next. The instance does as this says. It knows nothing of contents, packs or packets.
#![tactic(auto)]

mod turn;
mod vectors;

pub use turn::{OpTurn, is_next, turn_of};
pub use vectors::next_vector;
