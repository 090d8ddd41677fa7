//! The records of a trace, with the calls, operations and replies that they name; what their exact text is, as a definition.
//! Whoever makes or reads a trace, and every law of traces, stands on this room. It knows nothing of who may print which record
//! when, of what a call asks next, or of how the text is written.
#![tactic(auto)]

mod call;
mod descriptor;
mod entry;
mod operation;
mod packet_kind;
mod record;
mod reply;

pub use call::{Call, OpenMode};
pub use descriptor::{Beginning, Descriptor, OneVersion};
pub use entry::Entry;
pub use locus_ids;
pub use operation::{Op, Outcome, Served, What};
pub use packet_kind::PacketKind;
pub use record::{Brought, BroughtList, Record, StopCause};
pub use reply::Reply;
