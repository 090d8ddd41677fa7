// Packets that ascend by kind and receiver, which needs no look at their bytes.
ghost use Rattle.std.specs.Prelude.{◌≡◌, ◌≤◌, true};
ghost use Rattle.locus_ids.specs.Sizes.{sites_max};
ghost use Rattle.the_run.specs.Steps.{in_order};
ghost use Rattle.packet_order.specs.Orders.{key};

use wire_messages::Packet;
use wire_writing::kind_number;

/// The number of a packet's kind and its receiver, as one number.
fn key_of(packet: &Packet) -> u32
    ensures key { result ≡ key packet.now }
    ensures receiver { packet.now.to ≤ sites_max }
{
    32 * u32::from(kind_number(&packet.body)) + u32::from(packet.to.get())
}

/// Whether the packets ascend by kind and receiver. Then they are in order.
pub(crate) fn are_ascending(packets: &[Packet]) -> bool
    ensures { result ≡ true → packets.now ≡ in_order packets.now }
{
    let mut last = 0;
    for packet in packets {
        let key = key_of(packet);
        if key <= last {
            return false;
        }
        last = key;
    }
    true
}
