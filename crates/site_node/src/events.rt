// The events of a site. Each is the run's step.
ghost use Rattle.std.specs.Prelude.{◌≡◌, ◌≢◌, ◌⊎◌, Err, IfErr, OnOk};
ghost use Rattle.role_steps.specs.Views.{Calls, Receives, Ticks, Parts, Merges, GivesUp};
ghost use Rattle.site_packs.specs.Packs.{Stand, groups_of};
ghost use Rattle.site_packs.specs.declared.faults.WriteSize.{WriteSize};
ghost use Rattle.packet_order.specs.Orders.{behind};
ghost use Rattle.site_node.specs.Views.{Moves, steps_at, view_of};
ghost use Rattle.site_node.specs.Writing.{EventWrites};
ghost use Rattle.site_parts.specs.declared.fault.NodeFault.TheVariants.{Cut, NoMemory, NoNumber, Unfit};
ghost use Rattle.site_node.specs.Fitting.{CanAct};
ghost use Rattle.site_node.specs.Taking.{IsSpent, is_tried};

use crate::SiteNode;
use disk_model::Disk;
use locus_ids::Links;
use packet_order::Dispatch;
use site_parts::NodeFault;
use trace_book::Call;
use wire_messages::{Body, Outbox, Packet};

impl SiteNode {
    /// A process calls.
    pub fn call<D: Disk>(
        &mut self,
        disk: &mut D,
        links: &Links,
        process: u8,
        words: Call,
        out: &mut Dispatch,
    ) -> Result<(), NodeFault>
        requires { Stand self.old.packs (D.moment disk.old) }
        ensures step { OnOk result (Moves (steps_at self.old links.now (Calls process words)) self.old (D.moment disk.old) self.new (D.moment disk.new) out.old out.new) }
        ensures disk { EventWrites (steps_at self.old links.now (Calls process words) (view_of self.old (D.moment disk.old).seen)).written self.old.packs (D.moment disk.old) (D.moment disk.new) out.old out.new result }
        ensures numbered { IfErr result (λ fault. fault ≢ NoNumber) }
        ensures unfit { result ≡ Err Unfit → CanAct self.old.frame.config self.old.frame.me (groups_of self.old.packs) self.old.packs.site links.now (view_of self.old (D.moment disk.old).seen) (Calls process words) → ⊥ }
    {
        let mut own = Outbox::new(self.alloc);
        self.take_call(process, words, &mut own)?;
        self.end_event(disk, links, &mut own)?;
        out.add_in_order(own)?;
        Ok(())
    }

    /// A packet has come.
    pub fn receive<D: Disk>(
        &mut self,
        disk: &mut D,
        links: &Links,
        packet: Packet,
        out: &mut Dispatch,
    ) -> Result<(), NodeFault>
        requires { Stand self.old.packs (D.moment disk.old) }
        ensures step { OnOk result (Moves (steps_at self.old links.now (Receives packet)) self.old (D.moment disk.old) self.new (D.moment disk.new) out.old out.new) }
        ensures disk { EventWrites (steps_at self.old links.now (Receives packet) (view_of self.old (D.moment disk.old).seen)).written self.old.packs (D.moment disk.old) (D.moment disk.new) out.old out.new result }
        ensures spent { IfErr result (λ fault. fault ≡ NoNumber → IsSpent packet.body) }
        ensures unfit { result ≡ Err Unfit → CanAct self.old.frame.config self.old.frame.me (groups_of self.old.packs) self.old.packs.site links.now (view_of self.old (D.moment disk.old).seen) (Receives packet) → ⊥ }
    {
        if self.is_dropped(&packet) {
            drop(packet);
            return Ok(());
        }
        let tries = tries_at(&packet.body);
        let mut own = Outbox::new(self.alloc);
        if let Err(fault) = self.take(disk, links, packet, &mut own) {
            return Err(cut_off(fault, own, out));
        }
        let mut adopted = Outbox::new(self.alloc);
        if let Err(fault) = self.try_adoption(disk, tries, &mut adopted) {
            return Err(cut_off(fault, adopted, out));
        }
        self.end_event(disk, links, &mut own)?;
        out.add(adopted)?;
        out.add_in_order(own)?;
        Ok(())
    }

    /// Time passes: what isn't answered is sent again.
    pub fn tick<D: Disk>(
        &mut self,
        disk: &mut D,
        links: &Links,
        out: &mut Dispatch,
    ) -> Result<(), NodeFault>
        requires { Stand self.old.packs (D.moment disk.old) }
        ensures step { OnOk result (Moves (steps_at self.old links.now Ticks) self.old (D.moment disk.old) self.new (D.moment disk.new) out.old out.new) }
        ensures disk { EventWrites (steps_at self.old links.now Ticks (view_of self.old (D.moment disk.old).seen)).written self.old.packs (D.moment disk.old) (D.moment disk.new) out.old out.new result }
        ensures numbered { IfErr result (λ fault. fault ≢ NoNumber) }
        ensures unfit { result ≡ Err Unfit → CanAct self.old.frame.config self.old.frame.me (groups_of self.old.packs) self.old.packs.site links.now (view_of self.old (D.moment disk.old).seen) Ticks → ⊥ }
    {
        let mut adopted = Outbox::new(self.alloc);
        if let Err(fault) = self.adopt(disk, &mut adopted) {
            return Err(cut_off(fault, adopted, out));
        }
        out.add(adopted)?;
        self.repeat(out)?;
        let mut last = Outbox::new(self.alloc);
        self.end_event(disk, links, &mut last)?;
        out.add_in_order(last)?;
        Ok(())
    }

    /// The site begins to form an epoch of the members of its own that it reaches.
    pub fn part<D: Disk>(
        &mut self,
        disk: &mut D,
        links: &Links,
        out: &mut Dispatch,
    ) -> Result<(), NodeFault>
        requires { Stand self.old.packs (D.moment disk.old) }
        ensures step { OnOk result (Moves (steps_at self.old links.now Parts) self.old (D.moment disk.old) self.new (D.moment disk.new) out.old out.new) }
        ensures disk { EventWrites (steps_at self.old links.now Parts (view_of self.old (D.moment disk.old).seen)).written self.old.packs (D.moment disk.old) (D.moment disk.new) out.old out.new result }
        ensures spent { IfErr result (λ fault. fault ≡ NoNumber → self.old.epochs.promised.number ≡ 4294967295) }
        ensures unfit { result ≡ Err Unfit → CanAct self.old.frame.config self.old.frame.me (groups_of self.old.packs) self.old.packs.site links.now (view_of self.old (D.moment disk.old).seen) Parts → ⊥ }
    {
        let mut own = Outbox::new(self.alloc);
        self.start_part(links, &mut own)?;
        self.end_event(disk, links, &mut own)?;
        out.add_in_order(own)?;
        Ok(())
    }

    /// The site begins to form an epoch of all sites that it reaches.
    pub fn merge<D: Disk>(
        &mut self,
        disk: &mut D,
        links: &Links,
        out: &mut Dispatch,
    ) -> Result<(), NodeFault>
        requires { Stand self.old.packs (D.moment disk.old) }
        ensures step { OnOk result (Moves (steps_at self.old links.now Merges) self.old (D.moment disk.old) self.new (D.moment disk.new) out.old out.new) }
        ensures disk { EventWrites (steps_at self.old links.now Merges (view_of self.old (D.moment disk.old).seen)).written self.old.packs (D.moment disk.old) (D.moment disk.new) out.old out.new result }
        ensures spent { IfErr result (λ fault. fault ≡ NoNumber → self.old.epochs.promised.number ≡ 4294967295) }
        ensures unfit { result ≡ Err Unfit → CanAct self.old.frame.config self.old.frame.me (groups_of self.old.packs) self.old.packs.site links.now (view_of self.old (D.moment disk.old).seen) Merges → ⊥ }
    {
        let mut own = Outbox::new(self.alloc);
        self.start_merge(links, &mut own)?;
        self.end_event(disk, links, &mut own)?;
        out.add_in_order(own)?;
        Ok(())
    }

    /// The site gives up its epoch.
    pub fn give_up<D: Disk>(
        &mut self,
        disk: &mut D,
        links: &Links,
        out: &mut Dispatch,
    ) -> Result<(), NodeFault>
        requires { Stand self.old.packs (D.moment disk.old) }
        ensures step { OnOk result (Moves (steps_at self.old links.now GivesUp) self.old (D.moment disk.old) self.new (D.moment disk.new) out.old out.new) }
        ensures disk { EventWrites (steps_at self.old links.now GivesUp (view_of self.old (D.moment disk.old).seen)).written self.old.packs (D.moment disk.old) (D.moment disk.new) out.old out.new result }
        ensures numbered { IfErr result (λ fault. fault ≢ NoNumber) }
        ensures unfit { result ≡ Err Unfit → CanAct self.old.frame.config self.old.frame.me (groups_of self.old.packs) self.old.packs.site links.now (view_of self.old (D.moment disk.old).seen) GivesUp → ⊥ }
    {
        let mut own = Outbox::new(self.alloc);
        self.leave(&mut own)?;
        self.end_event(disk, links, &mut own)?;
        out.add_in_order(own)?;
        Ok(())
    }
}

/// The fault of a part of an event. Where the disk cut a write off, the event hands on what the part has told: the write's record.
fn cut_off(fault: NodeFault, told: Outbox, out: &mut Dispatch) -> NodeFault
    ensures fault { (result ≡ fault) ⊎ (result ≡ NoMemory) }
    ensures told { (size : WriteSize) → result ≡ Cut size → out.new ≡ behind out.old told }
{
    match fault {
        NodeFault::Cut(_) => match out.add(told) {
            Ok(()) => fault,
            Err(_) => NodeFault::NoMemory,
        },
        _ => fault,
    }
}

/// An adoption is tried at each Notify, each Page and each Delta.
fn tries_at(body: &Body) -> bool
    ensures { result ≡ is_tried body.now }
{
    match body {
        Body::Notify { .. } => true,
        Body::Page { .. } => true,
        Body::Delta { .. } => true,
        _ => false,
    }
}
