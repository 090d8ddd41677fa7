//! The using site: the calls of a site's processes, the instances that they have open, and their descriptors. Calls are
//! accepted, follow their scripts by the answers that packets bring, and are replied to. It knows nothing of copies, of
//! versions, or of who serves what it asks.
#![tactic(auto)]

mod answering;
mod beginning;
mod caching;
mod instances;
mod leaving;
mod mends;
mod replying;
mod stepping;
mod taking;
mod users;

pub use users::UsingSite;
