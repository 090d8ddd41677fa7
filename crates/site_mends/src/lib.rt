//! Which mends a synchronization site starts by itself: of a flagged directory, or of one in whose only kept version, held here, a
//! file has to be rescued. The running site calls it at the end of each event; it knows nothing of what a mend does then.
#![tactic(auto)]

mod fault;
mod rescues;
mod scanning;
mod starting;
mod wanting;

pub use fault::MendFault;
pub use site_tables;
pub use site_tables::{css_core, using_site};
pub use starting::start_mends;
