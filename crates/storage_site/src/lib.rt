//! The storage site: opens, operations, closes, looks, wants and pulls of what the packs of its site hold. The site calls it, and
//! what it gives is what the role's definition says. It knows nothing of which versions are kept, of descriptors or of
//! epochs beyond its frame.
#![tactic(auto)]

mod calls;
mod deltas;
mod held;
mod opening;
mod requests;
mod serving;
mod steps;
mod store;
mod telling;
mod wanting;

pub use requests::LookRequest;
pub use store::Store;
pub use store_instances::{HeldRead, StoreFault, StoreRequest};
