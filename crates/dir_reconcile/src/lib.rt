//! Two directories that meet: their join, and the rescue of files whose removal didn't see what others did to them. The
//! mends of a group's directories call this room. It knows nothing of epochs, of packets or of who holds what.
#![tactic(auto)]

mod agreeing;
mod fault;
mod join;
mod kept;
mod laws;
mod rescuing;
mod wanting;

pub use agreeing::agree_on_kinds;
pub use dir_format::{trace_book, version_vector};
pub use fault::RescueFault;
pub use join::join_dirs;
pub use kept::{KeptVector, KeptVectors};
pub use laws::{join_is_associative, join_is_commutative, join_is_idempotent};
pub use rescuing::rescue;
pub use wanting::rescue_wanted;
