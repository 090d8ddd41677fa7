//! The one tree of an epoch and a group as tables: what it gives next but for operations, and what becomes of it. Whoever
//! holds a trace against the one tree stands on this room. It keeps no records, and it must never know who printed them or
//! how sites talk.
#![tactic(auto)]

mod acting;
mod looking;
mod numbers;
mod opening;
mod placing;
mod releasing;
mod room;
mod taking;
mod tree;
mod working;

pub use tree::TreeTables;
pub use working::content_at;
