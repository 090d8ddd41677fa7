//! The world of a run: the sites with their disks, the circuits between them, the packets, and the text of the trace. Each line of a
//! schedule is done as the run says. The runner of a schedule stands on this room. It knows no reader and no sink.
#![tactic(auto)]

mod fault;
mod lines;
mod open;
mod packets;
mod settling;
mod sites;
mod world;

pub use fault::WorldFault;
pub use world::World;
