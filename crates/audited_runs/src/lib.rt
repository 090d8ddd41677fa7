//! That the audit answers yes to what runs print: as its records are read of their texts, the trace of every run is consistent record by
//! record. Theorems alone; this room has no running part.
#![tactic(auto)]

mod runs;

pub use runs::runs_are_audited_well;
