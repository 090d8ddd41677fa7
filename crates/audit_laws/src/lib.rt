//! Laws of audited traces: that they are tidy, what a turn says, and what an answer means.
//! Theorems about traces alone; this room has no running part.
//!
//! Parts:
//! - `Tidy`: What is true of the past of consistent records, and what tables that hold it rest on: names are given once,
//!   lists ascend, what refers to something finds it. It holds before the first record, and each record that may follow
//!   keeps it. Theorems alone, over the value of the records; this room knows of no run and has no running part.
//! - The rest: That the audit answers yes to a trace that is text, and of which each record comes as those of runs do, in
//!   its turn and at no lower line. That the trace of every run is such a one isn't put together here. Theorems alone;
//!   this room has no running part.
//! - `Turns`: Calls are told in order of process that their epoch has changed: along traces whose records come as those
//!   of every run do, where a reply that is due comes next. Theorems alone; this room has no running part.
#![tactic(auto)]

mod answers;
mod reading;
mod tidy_laws;
mod turn_laws;

pub use answers::sound_traces_are_answered_yes;
pub use reading::{following_traces_are_sound, records_are_meant_by_their_texts};
pub use tidy_laws::{records_have_one_call, steps_are_of_one_call, tidy_stays};
pub use turn_laws::changed_comes_in_turn;
