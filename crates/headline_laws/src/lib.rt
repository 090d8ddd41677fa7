//! The headline of every run, and what it is put together from.
//! Theorems about the run alone; this room has no running part.
//!
//! Parts:
//! - `WholeRuns`: What holds of every run as a whole: of its disks by its trace, of its rounds, and of its disk calls as
//!   they are counted. Theorems alone; this room has no running part.
//! - `StopRuns`: The stops of a run within disk calls: exactly where the lines that arm disks have them; and traces that
//!   show what that refuses. Theorems alone; this room has no running part.
//! - `Prompting`: Laws of every run about when its records come and what they speak of.
//! - `Promises`: What the headline says of every run beside its rows, each promise in its own words: a law of the run,
//!   over its records. Theorems alone; this room has no running part.
//! - `StopPromises`: The promise of stops within disk calls, said of what the records so far tell, holds where the law of
//!   stops does, which is said over folds of the trace: two formulations of the same. Theorems alone; this room has no
//!   running part.
//! - The rest: The run of a schedule is lawful: what the laws of sites, lines, calls and of the one tree give together.
//! - `HeadlinePromises`: Every run keeps the headline, each promise in its own words: over the value that its records
//!   tell, in the order in which they are printed. Theorems alone; this room has no running part.
//! - `Boxes`: The law of boxes: whatever was cut, lost or stopped, the messages of a box are those that were put into it,
//!   or into one of those that it was merged from, and not taken out. Theorems alone; this room has no running part.
//! - `OneVersion`: The law of one version holds of every run: whatever epochs come between, the reads of a steady
//!   descriptor are of the version that it was opened on. Theorems alone; this room has no running part.
#![tactic(auto)]

mod alone;
mod beside;
mod box_laws;
mod commits;
mod cut;
mod headline;
mod headline_promise_laws;
mod holding;
mod laws;
mod lines;
mod moments;
mod one_trace;
mod one_version_laws;
mod places;
mod promise_laws_wrong;
mod prompt;
mod replies;
mod rounds;
mod samples;
mod speaking;
mod stop_laws;
mod stop_promise_laws;
mod stops;
mod voids;
mod whole_run_laws;
mod wrong;

pub use alone::void_lines_tell_nothing_else;
pub use beside::{commits_wait_to_be_asked, owed_replies_come_first, refused_calls_change_nothing};
pub use box_laws::boxes_merge_by_themselves;
pub use commits::{
    aborts_drop_what_is_uncommitted, commits_are_not_refused, commits_come_when_asked,
};
pub use cut::cut_calls_are_counted;
pub use headline::{acknowledged_versions_are_new, every_run_keeps_the_headline};
pub use headline_promise_laws::{
    commits_are_kept, files_are_flagged_rightly, files_come_back_whole, runs_are_one_tree,
};
pub use holding::{commits_stay_held, only_a_changed_epoch_refuses, what_is_acknowledged_is_new};
pub use laws::{every_run_keeps_its_promises, runs_are_lawful};
pub use lines::lines_ask_for_runs;
pub use moments::{events_leave_all_so, versions_hold_throughout};
pub use one_trace::{the_history_is_one, the_printed_trace_is_one};
pub use one_version_laws::steady_readers_stay_with_one_version;
pub use places::records_stand_where_they_may;
pub use promise_laws_wrong::wrong_traces_break_promises;
pub use prompt::{disks_are_heeded, run_is_prompt};
pub use replies::{due_replies_come_next, replies_are_given, replies_stand_directly};
pub use rounds::{budgets_were_passed, calm_rounds_deliver_all, steady_rounds_are_calm};
pub use samples::{right_cuts_are_exact, rows_let_wrong_cuts_through, wrong_cuts_are_refused};
pub use speaking::records_speak_of_what_is;
pub use stop_laws::cuts_are_exact;
pub use stop_promise_laws::exact_cuts_keep_the_promise;
pub use stops::stops_come_where_disks_are_cut;
pub use voids::void_lines_change_nothing;
pub use whole_run_laws::{disks_hold_what_was_told, large_rounds_end};
pub use wrong::no_run_tells_these;
