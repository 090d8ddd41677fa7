ghost use Rattle.std.specs.Prelude.{◌≡◌, length, slice_get, Err, IfOk};
ghost use Rattle.std.specs.List.{AllByRecursion};
ghost use Rattle.std.specs.Option.{option_copied};
ghost use Rattle.packet_order.specs.Counts.{FitsIfCounted};
ghost use Rattle.packet_order.specs.Orders.{sorted_out, unsent};

use crate::OrderFault;
use crate::keys::are_ascending;
use crate::sorting::order_of;
use locus_ids::ItemList;
use std::alloc::Global;
use std::marker::Model;
use trace_book::Record;
use wire_messages::{Outbox, Packet, Packets, Records};

/// What one outbox gave, seen with its packets in the order in which they go.
pub struct Part {
    packets: Packets,
    /// The places of the packets in their order; none where they go as they stand.
    places: ItemList<usize>,
    records: Records,
}

// Taken apart in one place: where a part is dropped, the prover sees one call.
impl Drop for Part {
    fn drop(self) {
        let Part {
            packets: _,
            places: _,
            records: _,
        } = self;
    }
}

impl Model for Part {
    ghost use Rattle.std.specs.Prelude.{length};
    ghost use Rattle.wire_messages.specs.Outboxes.{Outgoing};
    ghost use Rattle.packet_order.specs.Orders.{in_place, ArePlaces};

    ghost Value = { Outgoing };

    ghost view = { λ p. record { packets = in_place p.packets p.places; records = p.records } };

    ghost invariant = { λ p. ArePlaces (length p.packets) p.places };
}

impl Part {
    /// An outbox as it stands.
    pub(crate) fn new(alloc: Global, outbox: Outbox) -> Part
        ensures { result ≡ outbox }
    {
        let (packets, records) = outbox.into_parts();
        Part {
            packets,
            places: ItemList::new(alloc),
            records,
        }
    }

    /// An outbox with its packets in order. `Unfit` only where a packet isn't one of the format.
    pub(crate) fn in_order(alloc: Global, outbox: Outbox) -> Result<Part, OrderFault>
        ensures order { IfOk result (λ part. part ≡ sorted_out outbox) }
        ensures unfit { result ≡ Err OrderFault.Unfit → AllByRecursion (λ p. FitsIfCounted p) outbox.packets → ⊥ }
    {
        let (packets, records) = outbox.into_parts();
        if are_ascending(packets.as_slice()) {
            let places = ItemList::new(alloc);
            return Ok(Part {
                packets,
                places,
                records,
            });
        }
        let places = order_of(alloc, packets.as_slice())?;
        Ok(Part {
            packets,
            places,
            records,
        })
    }

    /// The number of packets.
    pub fn len(&self) -> usize
        ensures { result ≡ length self.now.packets }
    {
        let count = self.places.len();
        if count == 0 {
            return self.packets.len();
        }
        count
    }

    /// The packet at a place, from 0, in the order in which they go.
    pub fn packet(&self, i: usize) -> Option<&Packet>
        ensures { option_copied result ≡ slice_get self.now.packets i }
    {
        if self.places.is_empty() {
            return self.packets.get(i);
        }
        match self.places.get(i) {
            Some(place) => self.packets.get(*place),
            None => None,
        }
    }

    /// Nothing of it is sent, and its records stay.
    pub(crate) fn drop_packets(&mut self)
        ensures { self.new ≡ unsent self.old }
    {
        self.packets.clear();
        self.places.clear();
    }

    /// What is told, the earliest record first.
    pub fn records(&self) -> &[Record]
        ensures { result.now ≡ self.now.records }
    {
        self.records.as_slice()
    }
}
