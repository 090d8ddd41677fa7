ghost use Rattle.std.specs.Prelude.{◌≡◌, ℕ, List, [], map, Some, None, true, IfErr, IfSome, IfOk, OnOk};
ghost use Rattle.locus_ids.specs.declared.config.Config.{Config};
ghost use Rattle.role_steps.specs.Views.{Receives};
ghost use Rattle.the_run.specs.Worlds.{World as RunWorld, Numbered, place_at, happens};
ghost use Rattle.the_run.specs.Runs.{packet_at, next_packet, arrives, arrives_at, delivers_line, loses_line, lists_pending};
ghost use Rattle.packet_mail.specs.Posts.{is_sent};
ghost use Rattle.world.specs.States.{state_of, state_at};
ghost use Rattle.world.specs.Shown.{Taken, Shows, Follows, FollowsWithin, Answers};
ghost use Rattle.world.specs.Faults.{WantsMemory, WantsMemoryWithin};
ghost use Rattle.complete_laws.specs.Lines.{CanHappen};
ghost use Rattle.complete_laws.specs.MomentEvents.{WherePacket};
ghost use Rattle.world.specs.Listed.{may_come, may_be_lost, next_number, listed, is_taken};

use crate::{World, WorldFault};
use locus_ids::NoMemory;
use packet_mail::PendingPacket;
use packet_order::Dispatch;
use site_place::SiteEvent;
use std::alloc::Global;
use trace_book::Record;
use wire_messages::{Outbox, Packet};

fn listed(pending: &PendingPacket) -> Record
    ensures { result ≡ listed pending.now }
{
    Record::Packet {
        number: pending.number,
        from: pending.from.get(),
        to: pending.to.get(),
        kind: pending.kind,
    }
}

/// The records of these packets, told in order.
fn told_of(alloc: Global, pending: &[PendingPacket]) -> Result<Dispatch, NoMemory>
    ensures { IfOk result (λ out. out ≡ record { packets = []; records = map listed pending.now }) }
{
    let mut outbox = Outbox::new(alloc);
    for packet in pending {
        outbox.note(listed(packet))?;
    }
    let mut out = Dispatch::new(alloc);
    out.add(outbox)?;
    Ok(out)
}

impl World {
    /// The packet of this number was sent, isn't lost, and its circuit is up.
    fn may_come(&self, number: u32) -> bool
        ensures { Answers (may_come number) (state_of self.now) result }
    {
        let mail = self.book.mail();
        let Some(from) = mail.sender(number) else {
            return false;
        };
        let Some(to) = mail.receiver(number) else {
            return false;
        };
        if mail.is_lost(number) {
            return false;
        }
        self.is_up(from, to)
    }

    /// The packet of this number was sent and isn't lost.
    fn may_be_lost(&self, number: u32) -> bool
        ensures value { Answers (may_be_lost number) (state_of self.now) result }
        ensures sent { result ≡ true → is_sent number self.now.book.post ≡ true }
    {
        let mail = self.book.mail();
        if !mail.is_sent(number) {
            return false;
        }
        !mail.is_lost(number)
    }

    /// The lowest-numbered packet that can be delivered; none where a limit was passed.
    pub(crate) fn next(&mut self) -> Option<u32>
        ensures value { (c : Config) (taken : Taken) (w : RunWorld) → Shows c taken w (state_of self.old) → next_number w ≡ result }
        ensures known { (c : Config) (taken : Taken) (w : RunWorld) → Shows c taken w (state_of self.old) → IfSome (next_packet w) (λ x. packet_at w x.number ≡ Some x) }
        ensures kept { self.new ≡ self.old }
    {
        if self.book.passed().is_some() {
            return None;
        }
        self.cuts.next(&self.places, &self.book)
    }

    /// The site that the packet names runs and doesn't drop it.
    #[inline(always)]
    fn is_taken(&self, packet: &Packet) -> bool
        ensures { result ≡ is_taken packet.now (state_at self.now.places.items packet.now.to) }
    {
        match self.places.get(usize::from(packet.to.get()) - 1) {
            Some(place) => !place.drops(packet),
            None => false,
        }
    }

    /// The packet comes to the site that it names.
    #[inline(always)]
    fn receive(&mut self, line: u32, packet: Packet) -> Result<(), WorldFault>
        ensures step { OnOk result (Follows (λ c w. happens c line packet.to (Receives packet) w) (state_of self.old) (state_of self.new)) }
        ensures fit { IfErr result (WantsMemory (λ c w. CanHappen c packet.to (Receives packet) w) (state_of self.old)) }
    {
        let to = packet.to;
        self.happen(line, to, SiteEvent::Receive { packet })?;
        Ok(())
    }

    /// The packet has come to the site that it names, where that runs and doesn't drop it.
    #[inline(always)]
    fn hand_over(&mut self, line: u32, packet: Packet) -> Result<(), WorldFault>
        ensures step { OnOk result (FollowsWithin (λ c w. arrives_at c line packet (place_at w packet.to) w) (state_of self.old) (state_of self.new)) }
        ensures fit { IfErr result (WantsMemory (λ c w. CanHappen c packet.to (Receives packet) w) (state_of self.old)) }
    {
        if !self.is_taken(&packet) {
            drop(packet);
            return Ok(());
        }
        self.receive(line, packet)?;
        Ok(())
    }

    /// A packet arrives, for the first time or again.
    pub(crate) fn arrive(&mut self, line: u32, number: u32) -> Result<(), WorldFault>
        ensures step { OnOk result ((x : Numbered) (c : Config) (taken : Taken) (w : RunWorld) → w.over ≡ None → packet_at w number ≡ Some x → Shows c taken w (state_of self.old) → Shows c taken (arrives c line x w) (state_of self.new)) }
        ensures fit { IfErr result (λ fault. (x : Numbered) → WantsMemoryWithin (λ c w. (packet_at w number ≡ Some x) × CanHappen c x.packet.to (Receives x.packet) w) (state_of self.old) fault) }
    {
        let mail = self.book.mail();
        if !mail.is_sent(number) {
            return Ok(());
        }
        // What was sent is a packet: only memory may be wanting.
        let Ok(packet) = mail.packet(self.alloc, number) else {
            return Err(WorldFault::NoMemory);
        };
        self.book.pass(number);
        self.hand_over(line, packet)?;
        Ok(())
    }

    /// The packet is delivered, void where it wasn't sent, is lost or can't come.
    pub(crate) fn deliver(&mut self, line: u32, number: u32) -> Result<(), WorldFault>
        ensures step { OnOk result (FollowsWithin (λ c w. delivers_line c line (packet_at w number) w) (state_of self.old) (state_of self.new)) }
        ensures fit { IfErr result (WantsMemoryWithin (λ c w. WherePacket (CanHappen c) (packet_at w number) w) (state_of self.old)) }
    {
        if self.may_come(number) {
            self.arrive(line, number)?;
            return Ok(());
        }
        self.void(line)?;
        Ok(())
    }

    /// The packet is lost, void where it wasn't sent or is lost.
    pub(crate) fn lose(&mut self, line: u32, number: u32) -> Result<(), NoMemory>
        ensures { OnOk result (FollowsWithin (λ c w. loses_line line (packet_at w number) w) (state_of self.old) (state_of self.new)) }
    {
        if self.may_be_lost(number) {
            self.book.lose(number)?;
            return Ok(());
        }
        self.void(line)?;
        Ok(())
    }

    /// The packets under way are listed.
    pub(crate) fn list_pending(&mut self, line: u32) -> Result<(), NoMemory>
        ensures { OnOk result (FollowsWithin (λ c w. lists_pending line w) (state_of self.old) (state_of self.new)) }
    {
        let pending = self.book.mail().pending(self.alloc)?;
        let out = told_of(self.alloc, pending.as_slice())?;
        self.note_told(line, &out)?;
        Ok(())
    }
}
