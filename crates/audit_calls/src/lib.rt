//! The accepted calls that the records of a trace tell of: what each asked, where it began, and what its requests were
//! answered. Whoever audits a trace finds a call here by its name or by its use of a descriptor, asks what its script asks
//! next, and tells what became of it. This room knows nothing of epochs, of versions, or of which record may come next.
#![tactic(auto)]

mod asking;
mod calls;
mod copying;
mod row;
mod settling;
mod uses;
mod waiting;

pub use asking::{group_asked, where_packed};
pub use calls::Calls;
pub use row::{Accepted, CallRow};
