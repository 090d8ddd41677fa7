ghost use Rattle.std.specs.Prelude.{◌↔◌, IsTrue};
ghost use Rattle.wire_messages.specs.Packets.{FitsPacket};

use crate::bodies::is_body;
use crate::fields::{is_epoch, is_number, is_site};
use wire_messages::Packet;

/// Each field of the packet is one of its format.
#[tactic(auto, using(crate::proofs::ShortBodies::short))]
pub fn fits(packet: &Packet) -> bool
    ensures { IsTrue result ↔ FitsPacket packet.now }
{
    is_site(packet.from.get())
        && is_number(packet.from_boot)
        && is_site(packet.to.get())
        && is_number(packet.to_boot)
        && is_epoch(packet.epoch)
        && is_body(&packet.body)
}
