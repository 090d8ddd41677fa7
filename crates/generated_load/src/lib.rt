//! The generated load: its cluster, and the lines of its opening, of each event and of its end. The program's `make` runs
//! them. This room knows the generator of numbers; it knows nothing of what a line does.
#![tactic(auto)]

mod cluster;
mod draws;
mod ends;
mod event_lines;
mod events;
mod laws;
mod load;

pub use cluster::{HEADER_LINES, load_cluster};
pub use ends::{closing_lines, opening_lines};
pub use laws::load_is_its_pieces;
pub use load::Load;
