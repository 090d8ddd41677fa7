//! Parts of the rules of an audit: what one site, one epoch or one open instance must be for a record to come next. Whoever judges
//! records joins them. Nothing here keeps anything or knows of the other tables.
#![tactic(auto)]

mod epochs;
mod joining;
mod members;
mod sites;
mod writing;

pub use audit_sites;
pub use epochs::{is_below, is_in};
pub use joining::{boot_in, has_boot_of, is_above_joined, same_members};
pub use members::{are_all_joined, is_number, is_packing, is_synced, same_as_brought};
pub use sites::{is_next_call, may_boot, may_leave, may_stop};
pub use writing::{Commit, commits_so, is_next, is_stamped, may_end, only_writer};
