//! Traces that the promises let through and traces that they don't, in printed order. Whoever doubts a row reads here what it forbids:
//! each of its conjuncts that no other implies has a trace that breaks it alone, by its last record. Nothing stands on this room, so a
//! new sample proves nothing else again. It has no running part, and knows nothing of how a run comes about.
#![tactic(auto)]

mod beside;
mod phrases;
mod right;
mod wrong;

pub use beside::{
    altered_pasts_are_judged, right_traces_are_asked_for, rows_know_no_lines,
    unasked_traces_are_not_asked_for, what_rows_let_through_fails_beside,
    wrong_stops_are_not_asked_for,
};
pub use phrases::{headline_holds, phrases_refuse};
pub use right::{right_traces_follow, right_traces_keep_beside, right_traces_keep_the_phrases};
pub use wrong::{
    broken_traces_fail, wrong_calls_fail, wrong_looks_fail, wrong_opens_fail,
    wrong_records_of_sites_fail, wrong_replies_fail, wrong_steps_fail, wrong_versions_fail,
};
