//! Whether a packet is one of the format: each of its fields in its range. Whoever sends packets as bytes asks it first. It knows
//! no bytes and nothing of what a site does with a packet.
#![tactic(auto)]

mod answers;
mod bodies;
mod fields;
mod lists;
mod memberships;
mod operations;
mod packet;
mod refusals;

pub use packet::fits;
