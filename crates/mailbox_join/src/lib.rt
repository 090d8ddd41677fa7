//! The names of messages in boxes: the name that a call gives to its message, and which names of a directory are names of messages.
//! Boxes merge as directories do, and since no two mails give one name, a merged box has each message once, under its own name. The
//! crate knows nothing of calls' scripts, of packets or of who reads a box.
#![tactic(auto)]

mod laws;
mod names;

pub use laws::message_names_tell_calls;
pub use names::{is_message, message_name, messages};
