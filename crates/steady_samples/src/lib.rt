//! A run of a steady descriptor on which the law of one version is tried, and traces on which it is false. Theorems alone; nothing stands on this
//! room.
#![tactic(auto)]

mod tried;

pub use tried::{a_reader_stays_with_its_version, other_versions_are_told};
