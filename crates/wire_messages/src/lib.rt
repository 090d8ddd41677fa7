//! The packets that sites send each other, as values, with the outbox that takes what an event sends and tells; and what the bytes of
//! each packet are, as definitions. Whoever handles packets, and the run that carries them, stands on this room. It knows nothing of
//! what a site does with a packet, or of how its bytes are written and read.
#![tactic(auto)]

mod body;
mod laws;
mod outbox;
mod packet;

pub use body::{
    Body, CloseAnswer, Granted, LookAnswer, MadeVersion, OpenedAs, Opening, PageNumbers,
    ReportedCopies, ReportedCopy,
};
pub use laws::no_packet_begins_another;
pub use outbox::{Outbox, Records};
pub use packet::{Packet, Packets};
pub use wire_fields::{trace_book, version_vector};
