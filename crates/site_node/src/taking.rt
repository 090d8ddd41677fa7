// A packet that the site's frame lets through.
ghost use Rattle.std.specs.Prelude.{◌≡◌, ◌≢◌, Err, IfErr, OnOk};
ghost use Rattle.site_packs.specs.Packs.{Stand, groups_of};
ghost use Rattle.site_node.specs.Views.{Moves, view_of};
ghost use Rattle.site_node.specs.Fitting.{CanTakeIn};
ghost use Rattle.site_node.specs.Taking.{IsSpent, in_epoch_takes, taken};
ghost use Rattle.site_node.specs.Writing.{EventWrites};
ghost use Rattle.site_parts.specs.declared.fault.NodeFault.TheVariants.{NoNumber, Unfit};

use crate::SiteNode;
use disk_model::Disk;
use locus_ids::{Links, SiteId};
use merge_protocol::FormingHeader;
use site_parts::{NodeFault, enter};
use wire_messages::{Body, Outbox, Packet};

impl SiteNode {
    /// Takes a packet, by its kind.
    pub(crate) fn take<D: Disk>(
        &mut self,
        disk: &mut D,
        links: &Links,
        packet: Packet,
        out: &mut Outbox,
    ) -> Result<(), NodeFault>
        requires { Stand self.old.packs (D.moment disk.old) }
        ensures step { OnOk result (Moves (taken self.old.frame.config self.old.frame.me links.now packet) self.old (D.moment disk.old) self.new (D.moment disk.new) out.old out.new) }
        ensures disk { EventWrites (taken self.old.frame.config self.old.frame.me links.now packet (view_of self.old (D.moment disk.old).seen)).written self.old.packs (D.moment disk.old) (D.moment disk.new) out.old out.new result }
        ensures spent { IfErr result (λ fault. fault ≡ NoNumber → IsSpent packet.body) }
        ensures unfit { result ≡ Err Unfit → CanTakeIn self.old.frame.config self.old.frame.me (groups_of self.old.packs) self.old.packs.site packet.from packet.body (view_of self.old (D.moment disk.old).seen) self.old.epochs.epoch → ⊥ }
    {
        let from = packet.from;
        let header = FormingHeader {
            from,
            from_boot: packet.from_boot,
            id: packet.epoch,
        };
        match &packet.body {
            Body::Poll => {
                drop(packet);
                self.take_poll(links, header, out)?;
                Ok(())
            }
            Body::Promise { reach } => {
                let reach = *reach;
                drop(packet);
                self.take_promise(header, reach);
                Ok(())
            }
            Body::Refuse { promised } => {
                let promised = *promised;
                drop(packet);
                self.take_refuse(links, header.id, promised, out)?;
                Ok(())
            }
            Body::Install { members } => {
                let members = *members;
                drop(packet);
                self.take_install(&header, &members, out)?;
                Ok(())
            }
            Body::Joined => {
                drop(packet);
                self.take_joined(from, header.id);
                Ok(())
            }
            _ => self.take_in_epoch(disk, from, packet.into_body(), out),
        }
    }

    /// Takes a packet of the epoch that the site is in.
    fn take_in_epoch<D: Disk>(
        &mut self,
        disk: &mut D,
        from: SiteId,
        body: Body,
        out: &mut Outbox,
    ) -> Result<(), NodeFault>
        requires { Stand self.old.packs (D.moment disk.old) }
        ensures step { OnOk result (Moves (in_epoch_takes self.old.frame.config self.old.frame.me from body) self.old (D.moment disk.old) self.new (D.moment disk.new) out.old out.new) }
        ensures disk { EventWrites (in_epoch_takes self.old.frame.config self.old.frame.me from body (view_of self.old (D.moment disk.old).seen)).written self.old.packs (D.moment disk.old) (D.moment disk.new) out.old out.new result }
        ensures numbered { IfErr result (λ fault. fault ≢ NoNumber) }
        ensures unfit { result ≡ Err Unfit → CanTakeIn self.old.frame.config self.old.frame.me (groups_of self.old.packs) self.old.packs.site from body (view_of self.old (D.moment disk.old).seen) self.old.epochs.epoch → ⊥ }
    {
        let Some(epoch) = self.epochs.epoch() else {
            drop(body);
            return Ok(());
        };
        enter(&mut self.frame, self.epochs.boot(), &epoch);
        self.take_inside(disk, from, body, out)
    }
}
