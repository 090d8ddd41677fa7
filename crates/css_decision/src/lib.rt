//! What a synchronization site decides of an open on its own table: it is refused, or granted at a storage site with the stamp
//! to begin from. It knows nothing of which opens there are, and sends nothing.
#![tactic(auto)]

mod decision;
mod grants;
mod requests;

pub use css_notices;
pub use decision::{Decision, Grant, asked_entry, denied_entry, grant_on, make_decision};
pub use grants::{kept_refusal, mode_of};
pub use requests::OpenRequest;
