//! What an audit keeps of its own verdicts: whether all records are consistent so far, how many there were, and which line is the
//! first whose record isn't. Both audits, of records and of lines, tell it each verdict. It knows nothing of what a record says.
#![tactic(auto)]

mod standing;
mod tally;

pub use standing::Standing;
pub use tally::Tally;
