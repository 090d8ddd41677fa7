//! What an audit asks of a call by its script: what it asks next where these members are in its epoch, and whether a look, an open, an
//! operation or a close is what it asks, as a row of the promises wants it. It knows nothing of versions or of what a tree gives.
#![tactic(auto)]

mod actors;
mod asking;
mod laws;
mod meant;
mod standing;
mod steps;

pub use actors::{actor, ender};
pub use asking::{asks, asks_after};
pub use audit_row_parts;
pub use laws::asked_by_members;
pub use meant::{look_meant, reply_meant};
pub use standing::{is_home, is_of_last, may_accept};
pub use steps::{asks_look, asks_open, asks_request, gives};
