//! Laws of every run about what is at rest between events, and that it has room.
//! Theorems about the run alone; this room has no running part.
//!
//! Parts:
//! - The rest: What each role does, it does as it may: joining and reporting, starting and serving a group, storing,
//!   mending and adopting; and what all of it rests on in every run. Theorems alone; this room has no running part.
//! - `CopiesKept`: Laws of every run about the bytes of versions: each copy on a disk has those that its version was
//!   committed with.
//! - `Fits`: What every run asks of disks, tables, packets and directories has room, is in range and can be done: none of
//!   the causes for which a role refuses a value as unfit comes in any run. Theorems alone; this room has no running
//!   part.
#![tactic(auto)]

mod adoption;
mod calm_asking;
mod copy_laws;
mod entry;
mod epoch_tree;
mod fit_laws;
mod laws;
mod made;
mod mend_step;
mod store_step;
mod table;

pub use adoption::{adoptions_are_taken_as_they_may, mends_wait_while_they_have_their_file_open};
pub use calm_asking::{asked_operations_can_be_done, inserted_numbers_are_new};
pub use copy_laws::{copies_have_contents, versions_and_copies_hold, versions_stand};
pub use entry::{directories_name_files, who_inserts_has_made};
pub use epoch_tree::{
    epochs_are_joined_and_reported, groups_start_when_all_have_reported, reported_rows_stand,
    reports_are_counted, reports_come_as_they_may, reports_tell_what_is_held,
    requests_that_waited_are_served, sites_join_with_nothing,
};
pub use fit_laws::{
    files_have_inodes, notices_are_of_versions, opens_are_of_sites, packs_have_room,
    sites_keep_their_room, tables_are_of_inodes, versions_fit_slots, what_is_pulled_may_be_adopted,
    what_runs_may_be_stored,
};
pub use laws::{
    cached_pages_are_of_their_versions, every_run_has_its_rest, every_run_is_one_tree,
    roles_do_as_they_may, roles_rest_on_the_past,
};
pub use made::makes_get_their_numbers;
pub use mend_step::{
    files_are_numbered, kept_vectors_agree, lawful_rows_meet_the_tree,
    mends_are_granted_at_their_site, mends_are_wanted, mends_start_as_they_may,
    mends_work_on_what_is_kept,
};
pub use store_step::{
    closes_are_steps, clusters_have_four_groups, formatted_disks_are_held, operations_are_steps,
    storage_sites_rest_on_the_past, what_is_owed_may_be_written,
};
pub use table::{adoptions_are_noted, closes_are_published};
