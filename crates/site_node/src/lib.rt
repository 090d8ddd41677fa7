//! A site that runs: all its roles together over its disk. Each event is a step of the run: what comes is taken by its role, an
//! adoption is tried, and the event ends. The world calls it; it knows nothing of lines, of other sites' state or of circuits
//! beyond which sites it reaches.
#![tactic(auto)]

mod adopting;
mod choosing;
mod ending;
mod events;
mod forming;
mod inside;
mod joining;
mod leaving;
mod node;
mod pulling;
mod taking;
mod ticking;
mod users;

pub use node::SiteNode;
pub use site_parts::NodeFault;
