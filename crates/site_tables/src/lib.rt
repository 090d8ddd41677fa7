//! The synchronization tables of a site, one for each group that it serves in its epoch: what comes is taken by the table of its
//! group. The running site stands on this room, which knows nothing of the site's other roles.
#![tactic(auto)]

mod at_group;
mod at_instance;
mod kept;
mod removing;
mod starting;
mod taking;

pub use at_group::notes_own;
pub use css_core;
pub use kept::{kept_vectors, stamps_kept};
pub use starting::start_tables;
pub use taking::{repeat_notices, take};
pub use using_site;
