//! The lines of a schedule as values: what the cluster is and what happens, how each line is spelled, and which line may
//! stand where. Whoever reads, runs or judges a schedule stands on this room. It knows nothing of what a line does.
#![tactic(auto)]

mod cluster;
mod header;
mod line;

pub use header::{Header, HeaderLine};
pub use line::{Leave, Line, ScheduleLine};
