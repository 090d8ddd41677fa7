//! What refuses an open in an epoch, and where it is granted, by all that a trace tells so far. The rows of an audit ask it. It
//! keeps nothing, changes nothing, and knows nothing of which record is judged.
#![tactic(auto)]

mod holding;
mod numbers;
mod opening;
mod placing;

pub use holding::{copies_in, held_in};
pub use numbers::lacks_numbers;
pub use opening::{is_refused, open_refusal};
pub use placing::{Place, is_placed};
