//! Packets out of their bytes. Whoever is handed a packet as bytes stands on this room. It knows the places of the fields, and
//! nothing of what a site does with them.
#![tactic(auto)]

mod decoder;
mod read_answers;
mod read_bodies;
mod read_openings;
mod read_replies;
mod read_requests;

pub use decoder::{NotAPacket, decode};
