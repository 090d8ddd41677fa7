//! The rows of the promises for calls, over what the records of a trace tell so far: whether a call may be accepted or answered so, and
//! whether a look, an open, an operation or a close is a step that its call asks; and what a look or a reply means by its text. Whoever
//! audits a trace asks it of each record.
#![tactic(auto)]

mod answers;
mod asked;
mod looks;
mod meanings;
mod steps;

pub use answers::{Replied, may_answer};
pub use asked::{asks, asks_after};
pub use audit_call_rows::audit_row_parts::Commit;
pub use audit_call_rows::{actor, ender, may_accept};
pub use audit_past::{Opening, Told};
pub use looks::{LookTold, is_looked_so};
pub use meanings::{look_meant, reply_meant};
pub use steps::{OperationAt, ReleaseAt, is_acted, is_ended};
