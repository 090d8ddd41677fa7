//! What a steady descriptor keeps, so that all its reads are of one version: an instance holds it while its site is in the epoch of that, and
//! a read that finds it not held opens the file again and goes on only where the version is the same. The crate knows nothing of packets, of
//! scripts or of who reads.
#![tactic(auto)]

mod steady;

pub use steady::{Opened, Steady, SteadyStep, comes_of};
