ghost use Rattle.std.specs.Prelude.{◌≡◌};

use crate::Body;
use wire_fields::trace_book::locus_ids::{EpochId, ItemList, SiteId};

/// What one boot of a site sends to one boot of another.
pub struct Packet {
    pub from: SiteId,
    pub from_boot: u32,
    pub to: SiteId,
    pub to_boot: u32,
    /// The epoch in which it is sent; for what forms an epoch, the name of that one.
    pub epoch: EpochId,
    pub body: Body,
}

// Taken apart in one place: where a packet is dropped, the prover sees one call, and not each text that its body may hold.
impl Drop for Packet {
    fn drop(self) {
        let Packet {
            from: _,
            from_boot: _,
            to: _,
            to_boot: _,
            epoch: _,
            body: _,
        } = self;
    }
}

impl Packet {
    /// What it says.
    pub fn into_body(self) -> Body
        ensures { result ≡ self.body }
    {
        let Packet {
            from: _,
            from_boot: _,
            to: _,
            to_boot: _,
            epoch: _,
            body,
        } = self;
        body
    }
}

/// Packets in the order of their sending.
pub type Packets = ItemList<Packet>;
