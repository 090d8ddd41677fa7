//! How many calls of a disk it takes to write a version or to boot, and which gates are open where one of these calls is cut
//! off: the one table by which a run counts its calls, and by which a trace is judged to be lawful. It knows nothing of sites,
//! of what a version is, or of where on a disk anything stands.
#![tactic(auto)]

mod laws;

pub use laws::{gates_switch_in_order, versions_take_four_calls};
