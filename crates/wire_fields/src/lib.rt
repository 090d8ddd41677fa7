//! What the parts of packets are as bytes: ids, sets, stamps, vectors, names, refusals, operations and their outcomes, each with its
//! codec and the laws of it. The formats of packets, and whoever proves anything of them, stand on these definitions. This room has
//! no running part: the readers and writers stand in `wire_parts`. It knows no kind of packet.
#![tactic(auto)]

mod asked;

pub use asked::{Asked, Gave};
pub use trace_book;
pub use version_vector;
