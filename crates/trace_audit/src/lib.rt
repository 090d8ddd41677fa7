//! The audit of a trace that anybody wrote, record by record: whether each may come after those before it. The command gives it the
//! records as they are read. It must never know of streams, of lines as bytes, or of how a verdict is printed.
#![tactic(auto, using(crate::proofs::Once::one_each))]

mod audit;
mod call_steps;
mod judging;
mod kinds;
mod meaning;
mod records;
mod site_steps;
mod tree_steps;
mod verdict;

pub use audit::Audit;
pub use verdict::Verdict;
