//! Laws of every run about the one tree of a partition: its names, versions and orders.
//! Theorems about the run alone; this room has no running part.
//!
//! Parts:
//! - `Caches`: Pages in memory are right: where each is that page of its version, they stay so when a read uses them or
//!   brings others, and what is found of a part of a version is what the version has there. Nothing of this room runs.
//! - The rest: The one tree in every run: how what is told maps to the tree's trace, what packets and sites carry, and
//!   that it stays when a lawful record is added. Laws of every run stand on this room. It has no running part, and knows
//!   nothing of bytes or of how a world is run.
//! - `Orders`: Laws of the one tree about the order of a file's versions and about processes, of every trace whose
//!   records come as the lawful trace has them. Theorems alone; this room has no running part.
//! - `Syncs`: The synchronization site in the one tree: what its table tells of a group is what the records so far make
//!   of it, and each of its steps tells what the tree gives. Theorems about lists of told lines and one table; this room
//!   has no running part.
#![tactic(auto)]

mod cache_laws;
mod laws;
mod order_laws;
mod process;
mod sync_laws;

pub use laws::{
    calls_ask_of_what_they_have, calls_that_ask_wait, earlier_calls_are_over,
    followed_traces_are_lawful, looks_ascend, packet_facts_stay, requests_are_next,
    serials_are_of_one_open,
};
pub use order_laws::{
    kept_versions_stay, known_versions_stand, open_instances_exclude_each_other,
    packs_join_before_the_start, used_numbers_stay_used,
};
pub use process::{
    answered_opens_wait, answers_wait_for_their_calls, askers_own_their_steps,
    operations_are_counted, sync_sites_agree, what_is_asked_is_had, what_is_asked_is_open,
};
pub use sync_laws::{
    epochs_name_boots, looks_are_served, makes_are_asked_of_their_sites,
    notices_are_of_kept_versions, opens_of_files_are_answered, opens_of_files_go_on,
    table_facts_stay, what_comes_again_changes_nothing,
};
