// An event of a site that runs.
ghost use Rattle.std.specs.Prelude.{◌≡◌, IfErr, OnOk};
ghost use Rattle.disk_model.specs.ScriptDisk.{seen, moment};
ghost use Rattle.site_packs.specs.Packs.{Stand};
ghost use Rattle.site_node.specs.Views.{Moves, steps_at, view_of};
ghost use Rattle.site_node.specs.Writing.{EventWrites};
ghost use Rattle.site_place.specs.Fitting.{CanActAt, IsOfDisk};
ghost use Rattle.site_place.specs.Places.{event_of};

use crate::SiteEvent;
use crate::counted_disk::CountedDisk;
use locus_ids::Links;
use packet_order::Dispatch;
use site_node::{NodeFault, SiteNode};

/// The event happens at the node, over its disk.
#[inline(always)]
pub(crate) fn act(
    node: &mut SiteNode,
    disk: &mut CountedDisk,
    links: &Links,
    event: SiteEvent,
    out: &mut Dispatch,
) -> Result<(), NodeFault>
    requires { Stand node.old.packs (moment disk.old.disk) }
    ensures step { OnOk result (Moves (steps_at node.old links.now (event_of event)) node.old (moment disk.old.disk) node.new (moment disk.new.disk) out.old out.new) }
    ensures disk { EventWrites (steps_at node.old links.now (event_of event) (view_of node.old (seen disk.old.disk))).written node.old.packs (moment disk.old.disk) (moment disk.new.disk) out.old out.new result }
    ensures fit { IfErr result (λ fault. CanActAt node.old (seen disk.old.disk) links.now (event_of event) → IsOfDisk fault) }
{
    match event {
        SiteEvent::Call { process, call } => node.call(disk, links, process, call, out),
        SiteEvent::Receive { packet } => node.receive(disk, links, packet, out),
        SiteEvent::Tick => node.tick(disk, links, out),
        SiteEvent::Part => node.part(disk, links, out),
        SiteEvent::Merge => node.merge(disk, links, out),
        SiteEvent::GiveUp => node.give_up(disk, links, out),
    }
}
