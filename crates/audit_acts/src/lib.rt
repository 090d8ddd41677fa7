//! What operations of an epoch's open instances add to their words, by the history and by the versions and instances that
//! the epoch knows: what is kept, what a mend makes, what a removal sees and on what a commit stands. Whoever judges the acts
//! of a trace that anybody wrote stands on this room. It keeps nothing, and changes nothing.
#![tactic(auto)]

mod adding;
mod keeping;
mod mending;

pub use adding::{added_for, free_pages, is_spent, parents_of};
pub use audit_tree;
pub use keeping::kept_in;
pub use mending::{mended, wants_rescue};
