//! The versions that the records of a trace tell, with what is asked of them: contents, written vectors, numbers, ancestors
//! and which are kept. Each answer is the one that the definitions give; where the history is regular, which it is
//! asked each time, ancestors and vectors are found without walking through all versions. Nothing here knows what a record is.
#![tactic(auto)]

mod stamps;
mod versions;

pub use versions::Versions;
