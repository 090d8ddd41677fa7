//! The runners: of a schedule, whose lines are read one by one and done in the world of the run; of the interactive tree and of a
//! generated load, over the fixed cluster whose opening is run first. What is told of a line is given out as text before the next
//! line is read. The program's commands stand on this room. It knows no source and no sink.
#![tactic(auto)]

mod counts_text;
mod fault;
mod laws;
mod load;
mod load_fault;
mod opened;
mod runner;
mod tree;

pub use fault::RunFault;
pub use laws::{lines_ask_one_thing, runs_grow};
pub use load::run_load;
pub use load_fault::LoadFault;
pub use opened::OpenedRun;
pub use runner::ScheduleRunner;
pub use tree::TreeRunner;
pub use world::WorldFault;
