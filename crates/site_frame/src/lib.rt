//! Where a role of a site stands: the cluster, the site with its boot number, the epoch and its members; and the packets
//! that it sends there. It knows no role's tables.
#![tactic(auto)]

mod frame;

pub use frame::SiteFrame;
