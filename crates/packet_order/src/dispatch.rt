ghost use Rattle.std.specs.Prelude.{◌≡◌, [], map, true, Err, OnOk};
ghost use Rattle.std.specs.List.{AllByRecursion};
ghost use Rattle.packet_order.specs.Counts.{FitsIfCounted};
ghost use Rattle.packet_order.specs.Holding.{parts_in};
ghost use Rattle.packet_order.specs.Orders.{behind, sorted_out, together, unsent};

use crate::holding::{Parts, listed};
use crate::{OrderFault, Part};
use locus_ids::NoMemory;
use std::alloc::Global;
use std::marker::Model;
use std::mem::replace;
use std::slice::from_ref;
use wire_messages::Outbox;

/// What events of a site send and tell, in the order of the run: one outbox after the other.
pub struct Dispatch {
    alloc: Global,
    parts: Parts,
}

// Taken apart in one place: where a dispatch is dropped, the prover sees one call.
impl Drop for Dispatch {
    fn drop(self) {
        let Dispatch { alloc: _, parts: _ } = self;
    }
}

impl Model for Dispatch {
    ghost use Rattle.wire_messages.specs.Outboxes.{Outgoing};
    ghost use Rattle.packet_order.specs.Holding.{parts_in};
    ghost use Rattle.packet_order.specs.Orders.{together};

    ghost Value = { Outgoing };

    ghost view = { λ d. together (parts_in d.parts) };
}

/// Of no part anything is sent.
fn drop_each(parts: &mut Vec<Part>)
    ensures { parts.new.items ≡ map unsent parts.old.items }
{
    for part in parts.iter_mut() {
        part.drop_packets();
    }
}

/// The same, however many parts there are.
fn drop_all(parts: &mut Parts)
    ensures { parts_in parts.new ≡ map unsent (parts_in parts.old) }
{
    match parts {
        Parts::None => {}
        Parts::One(part) => part.drop_packets(),
        Parts::Several(list) => drop_each(list),
    }
}

/// Nothing is sent and nothing told.
fn is_silent(outbox: &Outbox) -> bool
    ensures { result ≡ true → outbox.now ≡ record { packets = []; records = [] } }
{
    outbox.packets().is_empty() && outbox.records().is_empty()
}

impl Dispatch {
    /// Nothing is sent and nothing told. What it takes later comes from this allocator.
    pub fn new(alloc: Global) -> Dispatch
        ensures { result ≡ record { packets = []; records = [] } }
    {
        Dispatch {
            alloc,
            parts: Parts::None,
        }
    }

    /// Adds what an outbox gave, as it stands.
    pub fn add(&mut self, outbox: Outbox) -> Result<(), NoMemory>
        ensures { OnOk result (self.new ≡ behind self.old outbox) }
    {
        if is_silent(&outbox) {
            return Ok(());
        }
        let part = Part::new(self.alloc, outbox);
        self.push(part)
    }

    /// Adds what an outbox gave, its packets in order. `Unfit` only where there are several packets and one isn't of the format.
    /// Most outboxes give nothing: for these nothing is called.
    #[inline(always)]
    pub fn add_in_order(&mut self, outbox: Outbox) -> Result<(), OrderFault>
        ensures order { OnOk result (self.new ≡ behind self.old (sorted_out outbox)) }
        ensures unfit { result ≡ Err OrderFault.Unfit → AllByRecursion (λ p. FitsIfCounted p) outbox.packets → ⊥ }
    {
        if is_silent(&outbox) {
            return Ok(());
        }
        self.add_part_in_order(outbox)
    }

    #[inline(never)]
    fn add_part_in_order(&mut self, outbox: Outbox) -> Result<(), OrderFault>
        ensures order { OnOk result (self.new ≡ behind self.old (sorted_out outbox)) }
        ensures unfit { result ≡ Err OrderFault.Unfit → AllByRecursion (λ p. FitsIfCounted p) outbox.packets → ⊥ }
    {
        let part = Part::in_order(self.alloc, outbox)?;
        match self.push(part) {
            Ok(()) => Ok(()),
            Err(_) => Err(OrderFault::NoMemory),
        }
    }

    fn push(&mut self, part: Part) -> Result<(), NoMemory>
        ensures { OnOk result (self.new ≡ behind self.old part) }
    {
        match &self.parts {
            Parts::None => {
                self.parts = Parts::One(part);
                Ok(())
            }
            _ => self.push_behind(part),
        }
    }

    /// Adds a part that isn't the first one.
    #[cold]
    #[inline(never)]
    fn push_behind(&mut self, part: Part) -> Result<(), NoMemory>
        ensures { OnOk result (self.new ≡ behind self.old part) }
    {
        let before = replace(&mut self.parts, Parts::None);
        let mut parts = listed(self.alloc, before)?;
        parts.push(part)?;
        self.parts = Parts::Several(parts);
        Ok(())
    }

    /// Nothing of it is sent: its packets are dropped, and what is told stays as it was.
    pub fn drop_packets(&mut self)
        ensures { self.new ≡ unsent self.old }
    {
        drop_all(&mut self.parts);
    }

    /// What was added, one after the other.
    pub fn parts(&self) -> &[Part]
        ensures { self.now ≡ together result.now }
    {
        match &self.parts {
            Parts::None => &[],
            Parts::One(part) => from_ref(part),
            Parts::Several(list) => list.as_slice(),
        }
    }
}
