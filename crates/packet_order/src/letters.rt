// Packets as their bytes.
ghost use Rattle.std.specs.Prelude.{◌≡◌, ◌≤◌, ◌<◌, length, map, cond, false, Err, Some, slice_get, IfOk, OnOk};
ghost use Rattle.std.specs.List.{AllByRecursion};
ghost use Rattle.std.specs.Ordering.{is_lt};
ghost use Rattle.std.specs.Cmp.Lexicographic.{slice_cmp};
ghost use Rattle.wire_messages.specs.Packets.{FitsPacket, packet_bytes};
ghost use Rattle.packet_order.specs.Counts.{FitsIfCounted};
ghost use Rattle.wire_messages.specs.declared.packet.Packet.{Packet};
ghost use Rattle.the_run.specs.Steps.{is_before};

use crate::OrderFault;
use crate::counts::count;
use locus_ids::{Bytes, ItemList};
use packet_fit::fits;
use std::alloc::Global;
use std::cmp::Ordering;
use wire_messages::Packet;
use wire_writing::Encoder;

/// Where the number of the kind, the receiver and the body stand.
const KIND_AT: usize = 1;

const RECEIVER_AT: usize = 7;

const BODY_AT: usize = 25;

/// The bytes of each packet in turn, if all are of the format.
pub(crate) fn letters_of(alloc: Global, packets: &[Packet]) -> Result<ItemList<Bytes>, OrderFault>
    ensures letters { IfOk result (λ made. made ≡ map packet_bytes packets.now) }
    ensures unfit { result ≡ Err OrderFault.Unfit → AllByRecursion (λ p. FitsIfCounted p) packets.now → ⊥ }
{
    let mut encoder = Encoder::new(alloc)?;
    let mut made = ItemList::new(alloc);
    for packet in packets {
        match made.push(letter_of(alloc, packet, &mut encoder)?) {
            Ok(()) => {}
            Err(_) => return Err(OrderFault::NoMemory),
        }
    }
    Ok(made)
}

/// The bytes of a packet, if it is one of the format.
pub fn letter_of(alloc: Global, packet: &Packet, encoder: &mut Encoder) -> Result<Bytes, OrderFault>
    ensures letter { IfOk result (λ made. made ≡ packet_bytes packet.now) }
    ensures fits { OnOk result (FitsPacket packet.now) }
    ensures unfit { result ≡ Err OrderFault.Unfit → FitsIfCounted packet.now → ⊥ }
{
    if !fits(packet) {
        count(&packet.body);
        return Err(OrderFault::Unfit);
    }
    let mut letter = Bytes::new(alloc);
    match encoder.encode(packet, &mut letter) {
        Ok(()) => Ok(letter),
        Err(_) => Err(OrderFault::NoMemory),
    }
}

/// The bytes of the packet at a place, where these are those of packets.
pub fn letter_at(letters: &[Bytes], place: usize) -> &[u8]
    requires { place < length letters.now }
    ensures { Some result.now ≡ slice_get letters.now place }
{
    letters[place].as_slice()
}

/// The packet of the first bytes goes before that of the second.
pub(crate) fn is_before(a: &[u8], b: &[u8]) -> bool
    requires first { 25 ≤ length a.now }
    requires second { 25 ≤ length b.now }
    ensures { (p q : Packet) → a.now ≡ packet_bytes p → b.now ≡ packet_bytes q → result ≡ is_before p q }
{
    match a[KIND_AT].cmp(&b[KIND_AT]) {
        Ordering::Less => true,
        Ordering::Greater => false,
        Ordering::Equal => match a[RECEIVER_AT].cmp(&b[RECEIVER_AT]) {
            Ordering::Less => true,
            Ordering::Greater => false,
            Ordering::Equal => a[BODY_AT..].cmp(&b[BODY_AT..]) == Ordering::Less,
        },
    }
}
