//! The commands that run lines: `run` over the lines of a schedule, `tree` over calls on a fixed cluster, `make`
//! over those of a generated load. What a line comes to is given and flushed before the next one is read. Here stands what ends a
//! command, too: the status of each end with its exit code, a limit that was passed, a line that was not done. The program stands on this
//! room. It must never know what a line does, or what a record says.
#![tactic(auto)]

mod commands;
mod ends;
mod input;
mod lines;
mod runners;
mod sending;
mod status;
mod turn;

pub use commands::{make, run, tree};
pub use sending::send;
pub use status::{Limited, Status};
