//! Version vectors: one counter for each site, after Parker, Popek, Rudisin and others, "Detection of Mutual
//! Inconsistency in Distributed Systems" (IEEE Transactions on Software Engineering, 1983).
//! Slots, directories, copies and requests carry them and compare them. Nothing here knows what a counter counts.
#![tactic(auto)]

mod laws;
mod vector;

pub use laws::{joins_are_maxima, vectors_are_ordered};
pub use locus_ids;
pub use vector::{Ordering4, Spent, Vector};
