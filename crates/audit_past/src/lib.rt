//! What the records of a trace tell so far, as an audit keeps it: seen exactly as the past of the records, kept in tables with indices.
//! The rows of an audit ask it, and tell it each record that they let through. It must never know which record may come next.
#![tactic(auto)]

mod acting;
mod calling;
mod comings;
mod last;
mod making;
mod publishing;
mod replying;
mod starting;
mod told;
mod trees;

pub use audit_acts;
pub use audit_epochs;
pub use last::LastSeen;
pub use told::Told;
pub use trees::Opening;
