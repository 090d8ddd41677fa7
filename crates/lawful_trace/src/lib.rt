//! Which traces are lawful for the lines of a schedule: a row for each kind of record, that says what must stand before it;
//! and what is promised of calm rounds and orderly schedules. The program's statement and the audit of foreign traces stand
//! on this room. It knows nothing of packets, of bytes on disks, or of how a run comes about.
#![tactic(auto)]

mod laws;

pub use laws::{lawful_traces_are_consistent, lawful_traces_grow};
