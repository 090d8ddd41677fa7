//! What an operation on an open file gives and leaves: its result, the new content, the pages that it changes, and what has
//! become of the open instance after it. Storage sites and whoever follows the one tree stand on this room. It knows
//! nothing of versions beyond their stamps, of who asks, or of where the bytes are kept.
#![tactic(auto)]

mod work;

pub use work::Work;
