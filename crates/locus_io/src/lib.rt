//! Where bytes come from and go to: sources and sinks that count their faults.
//! The program's top call reads and writes through these traits alone, so it can say of each fault what caused it.
//! This crate knows nothing of lines, records or files.
#![tactic(auto)]

mod memory_sink;
mod memory_source;
mod standard;
mod traits;

pub use memory_sink::{MemSink, SureSink};
pub use memory_source::{MemSource, SureSource};
pub use standard::{StdSink, StdSource};
pub use traits::{ReadFault, Sink, Source, WriteFault, give_all};
