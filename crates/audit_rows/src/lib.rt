//! The rows of the promises over what the records of a trace tell so far: for each kind of record, whether it may come next. Whoever
//! audits a trace asks the one function of the record's kind. Nothing here keeps anything, and nothing says what a record leaves.
#![tactic(auto)]

mod acting;
mod answering;
mod asking;
mod calling;
mod finding;
mod granting;
mod keeping;
mod looking;
mod refusing;
mod releasing;
mod room;
mod sites;
mod underway;

pub use acting::{ActTold, Acting, act_with};
pub use answering::may_answer;
pub use asking::OpenTold;
pub use audit_told_calls::{
    Commit, LookTold, Opening, Replied, Told, ender, look_meant, reply_meant,
};
pub use calling::{CallTold, may_call};
pub use granting::{GrantTold, may_grant};
pub use looking::may_look;
pub use refusing::may_refuse;
pub use releasing::{EndTold, may_release};
pub use sites::{may_adopt, may_boot, may_commit, may_join, may_leave, may_start, may_stop};
