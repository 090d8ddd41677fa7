//! Laws of every run about the parts of a partition that keep its one tree: using and storage sites, and what is held.
//! Theorems about the run alone; this room has no running part.
//!
//! Parts:
//! - `Holdings`: Laws of the one tree about what sites hold: which versions, which of them are kept, how much room is
//!   left, and how mends stand on them. Theorems alone; this room has no running part.
//! - `Works`: Laws of the one tree about working contents: each version is no longer than a file may be, and each open
//!   instance works over the version on which it stands, whose pages it has but for those that it changed. Theorems
//!   alone; this room has no running part.
//! - `Users`: Laws of the using site in the one tree: what it has of its calls, instances and descriptors stays when
//!   somebody else tells a line, and goes on so by its own steps. Theorems about traces and views; this room has no
//!   running part.
//! - The rest: The storage site's steps in the one tree, with what calls ask of it and what it answers. Theorems alone;
//!   this room has no running part.
//! - `OneTree`: The one tree in every run: where each role does its step as it may, whatever a run tells comes as it may,
//!   so that each printed record is lawful; with what the calls of using sites have seen and asked. Theorems alone; this
//!   room has no running part.
#![tactic(auto)]

mod answer;
mod holding_laws;
mod laws;
mod make_call;
mod mend;
mod number;
mod one_tree_laws;
mod one_version;
mod remove;
mod room;
mod script;
mod spent;
mod storage;
mod told_vector;
mod user_laws;
mod user_step;
mod work_laws;

pub use answer::{
    answers_wait_where_they_are_asked, opens_wait_as_they_were_granted,
    operations_are_numbered_by_who_asks, operations_are_of_who_asks,
};
pub use holding_laws::{
    ancestors_are_an_order, commits_are_new, grants_wait_as_they_were_granted,
    held_versions_are_known, known_versions_are_below_kept_ones,
    open_instances_stand_on_what_is_held, sites_hold_what_they_have, what_a_site_has_rises,
};
pub use laws::{
    adoptions_come_as_they_may, closes_come_as_they_may, commits_are_owed, copies_are_served,
    makes_are_as_said, numbers_in_use_are_used, opens_are_begun, operations_come_as_they_may,
    pulls_are_of_known_versions, released_instances_end, store_facts_stay,
};
pub use make_call::{calls_make_once, makes_have_probed};
pub use mend::{
    mends_have_all_that_is_kept, only_kept_versions_are_had, whole_contents_are_of_kept_versions,
};
pub use number::full_sites_lack_numbers;
pub use one_tree_laws::{every_run_is_followed, sites_do_as_they_may};
pub use one_version::{
    homes_hold_their_files, makes_commit_their_files_first, numbers_of_makes_are_free,
    the_order_of_versions_stays,
};
pub use remove::removes_have_seen;
pub use room::{numbers_of_files_are_small, room_is_the_trees};
pub use script::{
    descriptors_stand_for_what_was_opened, opens_are_as_said, reads_open_again_what_they_read,
    scripts_end_rightly, untouched_instances_stand_as_granted, whole_looks_are_of_mends,
};
pub use spent::{no_mend_is_spent, rescues_have_their_numbers};
pub use storage::{operations_come_in_the_trees_room, what_storage_sites_rest_on};
pub use told_vector::{stamps_name_versions, vectors_tell_which_is_newer};
pub use user_laws::{
    accepted_calls_go_on, answered_looks_wait, answers_turn_their_calls, calls_go_on,
    closes_are_taken, counts_stay_outside, held_reads_are_taken, looks_are_taken, opens_are_taken,
    repeats_carry_their_facts, replies_come_as_they_may, requests_go_on, results_are_taken,
    users_begin_so, users_leave_rightly, users_stay,
};
pub use user_step::{calls_outside_end_at_once, user_steps_are_fine};
pub use work_laws::working_contents_fit;
