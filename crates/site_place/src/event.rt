use trace_book::Call;
use wire_messages::Packet;

/// An event of a site.
#[derive(Drop)]
pub enum SiteEvent {
    Call { process: u8, call: Call },
    Receive { packet: Packet },
    Tick,
    Part,
    Merge,
    GiveUp,
}
