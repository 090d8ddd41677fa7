//! The rules of the records that no call asks for: a site boots, stops, leaves an epoch, joins one; a group starts; a version is committed
//! or adopted. Whoever judges a trace calls them with what the records so far tell. They change nothing.
#![tactic(auto)]

mod adopting;
mod committing;
mod joining;
mod starting;

pub use adopting::may_adopt;
pub use audit_past::audit_acts::{added_for, is_spent, kept_in, wants_rescue};
pub use committing::may_commit;
pub use joining::may_join;
pub use starting::may_start;
