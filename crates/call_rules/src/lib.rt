//! The rules of calls: which words are refused at once, what the descriptors of a process allow, and the script of each
//! call, which is what it asks next once its requests were answered so far, up to its reply. The using site follows these
//! scripts with the answers that packets bring; the lawful trace reads the same answers out of the records. This room
//! knows nothing of packets, of records, or of what a tree of versions answers.
#![tactic(auto)]

mod answer;
mod laws;
mod want;

pub use answer::Answer;
pub use laws::{scripts_by_sample, words_by_sample, words_refuse_first};
pub use want::Want;
