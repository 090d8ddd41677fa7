//! The operations of the one tree: what the next operation of an open instance gives, by its working content, the versions
//! that are kept and the room that is left, and what becomes of the instance. Whoever holds the acts of a trace against the
//! one tree stands on this room. It keeps no records, and it must never know which site executes what.
#![tactic(auto)]

mod acting;
mod fault;
mod mending;
mod operating;
mod working;

pub use acting::act;
pub use fault::ActFault;
