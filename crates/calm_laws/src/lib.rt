//! Laws of calm rounds: what is sent and held in them, what is pulled, and that copies converge.
//! Theorems about the run alone; this room has no running part.
//!
//! Parts:
//! - `SentCalm`: Laws of every run about what a synchronization site has answered: a report that it has taken, and an
//!   open that it has granted, stay in its tables while it is in the epoch, and closes come to it.
//! - `Pulls`: Laws of what sites pull and hold: each file is pulled once at a time, of an unflagged file no known version
//!   is above the only kept one, what a site has of a file in an epoch never falls, and a group that has started has a
//!   member with a pack of it. Theorems about runs and traces; this room has no running part.
//! - `TablesCalm`: What the tables of synchronization sites are like in every run: laws of the run, on which those of
//!   calm rounds rest. Theorems about the run; this room has no running part.
//! - The rest: Calm rounds answer: in a round whose members stay together each waiting call is carried by a packet under
//!   way, and each delivery hands on what its packet carried; so no call of a member, mends included, waits after such a
//!   round. Theorems about the run; this room has no running part.
//! - `Convergence`: After calm rounds members hold the same versions: laws of the run about copies that converge.
//!   Theorems about the run; this room has no running part.
#![tactic(auto)]

mod calm_answer;
mod calm_sent_laws;
mod calm_table_laws;
mod convergence_laws;
mod laws;
mod pull_laws;

pub use calm_answer::{
    calm_rounds_answer, calm_rounds_leave_nobody, looks_are_known, opens_carry_on, reports_carry_on,
};
pub use calm_sent_laws::{instances_stand, packets_stand, reports_stand};
pub use calm_table_laws::tables_keep_their_shape;
pub use convergence_laws::{
    copies_converge, copies_converge_in_traces, no_directory_is_flagged,
    no_directory_is_flagged_in_traces, no_rescue_is_wanted, no_rescue_is_wanted_in_traces,
    some_directories_want_a_rescue, some_files_are_at_rest, undisturbed_directories_want_no_rescue,
    undisturbed_directories_want_no_rescue_in_traces,
};
pub use laws::nobody_waits_where_nothing_comes;
pub use pull_laws::{
    held_never_falls, known_are_under_the_only_kept, pulls_ascend, started_groups_are_packed,
};
