//! Open instances at their storage site: how one begins, what an operation or a close does with it, and its commits to the
//! packs of its site. The storage site stands on this room. It knows one instance at a time, and nothing of looks, of pulls
//! or of which instances there are.
#![tactic(auto)]

mod acting;
mod beginning;
mod closing;
mod committing;
mod fault;
mod held;
mod instance;
mod operations;
mod pages;
mod requests;

pub use fault::StoreFault;
pub use held::HeldRead;
pub use instance::StoreInstance;
pub use pages::short_number;
pub use requests::StoreRequest;
pub use site_packs;
