//! The written vector of a version, computed from the history of versions alone. Whoever judges what sites did by the
//! versions that they committed stands on this room. It knows nothing of copies, and it must never read a vector that a
//! site wrote.
#![tactic(auto)]

mod vectors;

pub use vectors::vector_of;
