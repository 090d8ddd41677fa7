//! The audit of an input: it reads the input line by line to its end, has each record judged, and says what is answered. The command
//! calls it, and writes the answer. It knows the lines and their limits, but no more of a record than whether it is consistent.
#![tactic(auto)]

mod fault;
mod hearing;
mod input;
mod lines;

pub use fault::AuditFault;
pub use input::audit;
