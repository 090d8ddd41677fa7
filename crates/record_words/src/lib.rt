//! The words of a record of a trace: which number, name, list, refusal, result or reply some bytes are. The parser of lines
//! puts records together from these. It knows nothing of which record a word belongs to.
#![tactic(auto)]

pub mod answers;
pub mod fields;
pub mod lists;
pub mod refusals;
