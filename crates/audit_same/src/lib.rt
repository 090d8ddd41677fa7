//! Whether two operations, requests or replies are the same, as an audit compares what a record says with what a script asks. The rules
//! of an audit call this room. It knows nothing of what is compared with what.
#![tactic(auto)]

mod lists;
mod operations;
mod replies;
mod requests;

pub use lists::{same_bytes, same_names, same_stamps};
pub use operations::{same_op, same_what};
pub use replies::same_reply;
pub use requests::same_request;
