//! The switch by which a disk passes from one version of a record to the next, whenever a crash comes: what is new is written
//! and synced before its gate opens, and the gate of the old version closes last. Packs commit their inodes by it, and the
//! label of a disk its boot number. It knows places and bytes, and nothing of what they mean.
#![tactic(auto)]

mod source;
mod switching;

pub use source::PieceSource;
pub use switching::{close_gate, switch};
