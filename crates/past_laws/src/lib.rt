//! What the records so far tell, said twice: as a value that takes record by record, and as folds over the trace. Along a trace whose
//! records come as those of every run do both say the same, and each record that may come by the one may follow by the other. Theorems
//! alone; this room has no running part.
#![tactic(auto)]

mod laws;

pub use laws::{lawful_traces_are_one_tree, value_and_folds_agree, what_may_follow_comes_so};
