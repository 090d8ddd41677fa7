//! The writer of a trace: a record's line, put at the end of some bytes, and the records of a trace kept in their order. Whoever
//! prints a trace calls this room, or shows a record, an operation, an outcome, a reply or a refusal as a trace has it; what the text
//! is stands with the records. It knows nothing of where the bytes go, or of who may print which record when.
#![tactic(auto)]

mod answers;
mod book;
mod call_records;
mod lists;
mod phrases;
mod pieces;
mod rendering;
mod requests;
mod site_records;
mod version_records;

pub use answers::{push_outcome, push_refusal, push_reply};
pub use book::Book;
pub use rendering::{push_record, render, render_onto};
pub use requests::push_op;
