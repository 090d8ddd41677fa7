//! The law of one version: all reads of a steady descriptor are of the version that it was opened on. Theorems alone; this room has no running
//! part.
#![tactic(auto)]

mod laws;

pub use laws::{
    descriptors_keep_versions, last_answers_are_of_records, reads_are_of_working_contents,
    reads_ask_to_read, reads_have_one_operation, steady_calls_begin,
};
