//! The order in which what a site's event gives goes out: packets by kind, receiver and bytes, and several outboxes one after
//! the other; and which packets a site drops unread. It knows nothing of what a packet is for.
#![tactic(auto)]

mod counts;
mod dispatch;
mod fault;
mod framing;
mod holding;
mod keys;
mod letters;
mod part;
mod sorting;

pub use dispatch::Dispatch;
pub use fault::OrderFault;
pub use framing::is_dropped;
pub use letters::letter_of;
pub use part::Part;
