//! Packets put together as bytes, in buffers that are kept. Whoever sends packets, or measures them, calls this room; what the bytes
//! are stands with the packets. It knows the places of the fields, and nothing of what a site does with them.
#![tactic(auto)]

mod encoder;
mod put_answers;
mod put_bodies;
mod put_replies;
mod put_requests;

pub use encoder::{Encoder, encode};
pub use put_bodies::kind_number;
