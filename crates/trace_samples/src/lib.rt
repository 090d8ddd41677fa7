//! Traces that are right and traces that are wrong, with the schedules they are of, and that the checker finds them lawful or not;
//! and records whose trees compute, so that no definition is empty. Whoever doubts a row of the lawful trace reads here what it
//! forbids. Nothing stands on this room, so a new sample proves nothing else again. It has no running part, and knows nothing of how
//! a run comes about.
#![tactic(auto)]

mod laws;

pub use laws::{
    broken_traces_are_inconsistent, right_traces_are_lawful, right_traces_are_prompt,
    wrong_traces_are_unlawful,
};
