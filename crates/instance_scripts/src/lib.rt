//! What calls ask of open instances: a call on a descriptor, a mend, a read that opens its version again, and what is made,
//! renamed or removed in an open directory, until all that a call has opened is closed. The scripts of calls stand on this
//! room. It knows nothing of packets, of how a path is walked or of descriptors' tables.
#![tactic(auto)]

mod closing;
mod making;
mod mending;
mod naming;
mod removing;
mod reopening;
mod using;

pub use making::{NewFile, probes};
pub use mending::mend_wants;
pub use naming::renames;
pub use removing::{Entry, finds};
pub use reopening::reopen_wants;
pub use using::uses_wants;
