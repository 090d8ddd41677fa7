//! The lines that the program runs stand as those of a schedule may: those that are read as a schedule, those of the calls that are read
//! on the fixed cluster, and those of the generated load. Theorems about lines alone; this room has no running part.
#![tactic(auto)]

mod laws;

pub use laws::{loads_are_in_order, schedules_are_in_order, trees_are_in_order};
