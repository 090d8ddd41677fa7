//! What a running site does in its parts: the frame in which an event is served, which role takes a packet, what comes to the
//! storage site, what is reported where an epoch is joined, and the fault that all of it answers. The running site calls them with
//! its own parts; they know nothing of the order in which an event goes on.
#![tactic(auto)]

mod fault;
mod framing;
mod mending;
mod reporting;
mod roles;
mod storing;

pub use fault::NodeFault;
pub use framing::{enter, stay_outside};
pub use reporting::{join_epoch, report_groups};
pub use roles::{Role, role_of};
pub use site_mends::{css_core, site_tables, start_mends, using_site};
pub use storage_site;
pub use storing::take_at_store;
