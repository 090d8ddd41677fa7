//! What the one tree of an epoch and a group gives, computed of any trace that is consistent so far: where files are made,
//! what refuses an open, what looks find, what operations give and leave. Whoever judges a trace that anybody wrote stands
//! on this room. It keeps nothing, and knows nothing of tables.
#![tactic(auto)]

mod acting;
mod answering;
mod last_dir;
mod looking;
mod opening;
mod operating;
mod places;
mod working;

pub use acting::{Added, act};
pub use answering::{close_answer, granted_answer, outcome_answer, reading_answer};
pub use last_dir::LastDir;
pub use opening::{
    excludes, has_kept, is_given, is_only, is_read, is_served, kept_refusal, numbers_used,
};
pub use operating::{commit, mend, operate, remove};
pub use places::{make_refusal, place_for, resolves_from, set_for, sync_site};
pub use working::{are_several, free_pages, is_spent, lacks_numbers, merges};
