//! Laws of every run about what sites hold: versions and their vectors, locks and instances, packs, makes, and what is kept.
//! Theorems about the run alone; this room has no running part.
//!
//! Parts:
//! - `Vectors`: Laws of every run about versions: what the disks hold, by the trace, and what written vectors tell of a
//!   file's commits. Theorems alone; this room has no running part.
//! - `Locks`: Laws of every run about instances and locks: how an instance goes on from its grant to its release, which
//!   may be open side by side, that what using sites ask was granted and begun, and that scripts change only what they
//!   have opened to write.
//! - `Packs`: Laws of every run about open instances and where files are: serial numbers, inode numbers, who writes, in
//!   which packs files lie, and how far the counters of versions come. Theorems alone; this room has no running part.
//! - `Makes`: Laws of every run about instances that run and files that are being made. Theorems alone; this room has no
//!   running part.
//! - `Kept`: Laws of every run about the versions of a file: no two commits have one stamp, and which versions are kept
//!   in an epoch. Theorems alone; this room has no running part.
#![tactic(auto)]

mod counter;
mod history;
mod inode;
mod instance;
mod kept_laws;
mod lock_laws;
mod make_laws;
mod pack_laws;
mod running;
mod stamp;
mod vector_laws;
pub mod version;
mod writer;

pub use counter::{commits_are_few, numbers_stay_low};
pub use history::{commits_are_held, copies_are_true, sites_are_known, vectors_tell_ancestors};
pub use inode::numbers_fit;
pub use instance::{
    instances_agree, instances_are_begun_once, instances_have_one_site, serials_are_once,
};
pub use kept_laws::{
    commits_are_kept, kept_versions_hold, names_are_versions, roots_follow, vectors_keep_the_same,
    versions_are_ordered,
};
pub use lock_laws::{
    grants_are_locked, instances_go_on, joins_are_once, scripts_open_what_they_change,
    tables_are_locked, what_is_asked_is_begun,
};
pub use make_laws::{
    grants_name_who_begins, holds_are_locked, makes_are_reserved, makes_commit_first,
    numbers_are_fresh, reserves_are_of_makes, tables_have_reports,
};
pub use pack_laws::{files_are_made_at_home, files_lie_in_packs, homes_commit_first};
pub use running::{
    instances_are_begun_at_one_site, instances_run, opens_are_as_granted, plain_grants_stand,
    stores_stand, writers_commit_alone,
};
pub use stamp::stamps_are_once;
pub use vector_laws::{commits_are_numbered, copies_are_told, vectors_are_written};
pub use version::versions_hold;
pub use writer::{
    changes_are_asked_to_write, commits_are_granted_here, grants_are_alike, grants_are_apart,
    grants_name_their_site, readers_change_nothing, writers_are_alone,
};
