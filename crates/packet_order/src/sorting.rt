// Packets are brought into their order.
ghost use Rattle.std.specs.Prelude.{◌≡◌, ◌<◌, length, map, Some, Err, slice_get, IfOk};
ghost use Rattle.std.specs.List.{AllByRecursion};
ghost use Rattle.wire_messages.specs.Packets.{packet_bytes};
ghost use Rattle.packet_order.specs.Counts.{FitsIfCounted};
ghost use Rattle.wire_messages.specs.declared.packet.Packet.{Packet};
ghost use Rattle.the_run.specs.Steps.{in_order, is_before};
ghost use Rattle.packet_order.specs.Orders.{picked, place_before, ArePlaces};

use crate::OrderFault;
use crate::letters::{is_before, letter_at, letters_of};
use locus_ids::{Bytes, ItemList};
use std::alloc::Global;
use wire_messages::Packet;

/// The places of the packets in the order in which they go.
pub(crate) fn order_of(alloc: Global, packets: &[Packet]) -> Result<ItemList<usize>, OrderFault>
    ensures order { IfOk result (λ places. picked packets.now places ≡ in_order packets.now) }
    ensures within { IfOk result (λ places. ArePlaces (length packets.now) places) }
    ensures unfit { result ≡ Err OrderFault.Unfit → AllByRecursion (λ p. FitsIfCounted p) packets.now → ⊥ }
{
    let letters = letters_of(alloc, packets)?;
    let mut places = ItemList::new(alloc);
    for next in 0..packets.len() {
        let at = place_for(packets, letters.as_slice(), places.as_slice(), next);
        match places.insert(at, next) {
            Ok(()) => {}
            Err(_) => return Err(OrderFault::NoMemory),
        }
    }
    Ok(places)
}

/// Where a packet comes among those at these places.
fn place_for(packets: &[Packet], letters: &[Bytes], places: &[usize], next: usize) -> usize
    requires letters { letters.now ≡ map packet_bytes packets.now }
    requires next { next < length packets.now }
    requires within { ArePlaces (length packets.now) places.now }
    ensures { (p : Packet) → slice_get packets.now next ≡ Some p → result ≡ place_before is_before p (picked packets.now places.now) }
{
    let letter = letter_at(letters, next);
    for i in 0..places.len() {
        let other = letter_at(letters, places[i]);
        if is_before(letter, other) {
            return i;
        }
    }
    places.len()
}
