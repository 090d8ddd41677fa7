//! The synchronization site of a group: it knows which versions there are and who holds them, decides opens and looks on its
//! own table, publishes what closes have made, and notifies the members that lag. Each public call is a function of the roles'
//! definitions. It knows nothing of disks, contents or calls of users.
#![tactic(auto)]

mod closing;
mod css;
mod early;
mod kept;
mod looking;
mod looks;
mod opening;
mod reporting;
mod requests;
mod service;

pub use css::Css;
pub use css_decision::OpenRequest;
pub use requests::LookRequest;
