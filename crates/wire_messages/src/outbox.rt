ghost use Rattle.std.specs.Prelude.{◌≡◌, [], ◌∷◌, ◌++◌, OnOk, OnErr};

use crate::{Packet, Packets};
use std::alloc::Global;
use std::marker::Model;
use wire_fields::trace_book::Record;
use wire_fields::trace_book::locus_ids::{ItemList, NoMemory};

/// What a site tells, the earliest record first.
pub type Records = ItemList<Record>;

/// What one event sends and tells, each in order.
pub struct Outbox {
    packets: Packets,
    records: Records,
}

// Taken apart in one place: where an outbox is dropped, the prover sees one call.
impl Drop for Outbox {
    fn drop(self) {
        let Outbox {
            packets: _,
            records: _,
        } = self;
    }
}

impl Model for Outbox {
    ghost use Rattle.wire_messages.specs.Outboxes.{Outgoing, outgoing};

    ghost Value = { Outgoing };

    ghost view = { outgoing };
}

impl Outbox {
    ghost use Rattle.wire_messages.specs.Outboxes.{Outgoing};

    /// Nothing sent and nothing told.
    pub fn new(alloc: Global) -> Outbox
        ensures packets { result.packets ≡ [] }
        ensures records { result.records ≡ [] }
    {
        Outbox {
            packets: Packets::new(alloc),
            records: Records::new(alloc),
        }
    }

    /// Sends a packet. After `NoMemory` the outbox is as it was.
    pub fn send(&mut self, packet: Packet) -> Result<(), NoMemory>
        ensures ok { OnOk result (self.new ≡ record self.old { packets = self.old.packets ++ packet ∷ [] }) }
        ensures err { OnErr result (self.new ≡ self.old) }
    {
        self.packets.push(packet)
    }

    /// Tells a record. After `NoMemory` the outbox is as it was.
    pub fn note(&mut self, told: Record) -> Result<(), NoMemory>
        ensures ok { OnOk result (self.new ≡ record self.old { records = self.old.records ++ told ∷ [] }) }
        ensures err { OnErr result (self.new ≡ self.old) }
    {
        self.records.push(told)
    }

    /// What is sent, the earliest packet first.
    pub fn packets(&self) -> &Packets
        ensures { result.now ≡ self.now.packets }
    {
        &self.packets
    }

    /// What is told, the earliest record first.
    pub fn records(&self) -> &Records
        ensures { result.now ≡ self.now.records }
    {
        &self.records
    }

    /// The packets and the records, each in order.
    pub fn into_parts(self) -> (Packets, Records)
        ensures packets { result.0 ≡ self.packets }
        ensures records { result.1 ≡ self.records }
    {
        let Outbox { packets, records } = self;
        (packets, records)
    }
}
