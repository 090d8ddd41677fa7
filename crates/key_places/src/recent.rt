// The places of keys that came not long ago. Each key has one of some slots, and a slot has the key that came to it last, so that most keys
// are found at once; which others share their slot is left to the table of all.
ghost use Rattle.std.specs.Prelude.{◌≡◌, ◌<◌, List, ◌∷◌, length, Some, IfSome, IfOk};
ghost use Rattle.key_places.specs.declared.key.Key.{Key};
ghost use Rattle.key_places.specs.Places.{place_of};
ghost use Rattle.key_places.specs.Recent.{AreRecent, slot_of};

use crate::key::{Key, number_key};
use locus_ids::NoMemory;
use std::alloc::Global;

/// The key that came to a slot last, with its place; no place where none came.
#[derive(Clone, Copy)]
pub(crate) struct Slot {
    pub(crate) key: Key,
    pub(crate) place: Option<usize>,
}

/// The slot of a key, where there are so many.
fn slot_of(key: &Key, many: usize) -> usize
    requires { 0 < many }
    ensures value { result ≡ slot_of key.now many }
    ensures within { result < many }
{
    let parts = u64::from(key.first)
        + 31 * u64::from(key.second)
        + 977 * u64::from(key.third)
        + 257 * u64::from(key.fourth);
    (parts % many as u64) as usize
}

/// Slots to which no key has come.
pub(crate) fn empty_slots(alloc: Global, many: usize) -> Result<Vec<Slot>, NoMemory>
    ensures { IfOk result (λ slots. (keys : List Key) → AreRecent slots.items keys) }
{
    let none = Slot {
        key: number_key(0),
        place: None,
    };
    let mut slots = Vec::new(alloc);
    for _ in 0..many {
        slots.push(none)?;
    }
    Ok(slots)
}

/// The place of the key, where it is in its slot.
pub(crate) fn recent_place(slots: &[Slot], key: &Key) -> Option<usize>
    ensures { (keys : List Key) → AreRecent slots.now keys → IfSome result (λ place. place_of key.now keys ≡ Some place) }
{
    if slots.is_empty() {
        return None;
    }
    let slot = slots[slot_of(key, slots.len())];
    if slot.key == *key { slot.place } else { None }
}

/// One more key has come.
pub(crate) fn remember(slots: &mut Vec<Slot>, key: Key, place: usize)
    ensures { (keys : List Key) → AreRecent slots.old.items keys → place ≡ length keys → AreRecent slots.new.items (key ∷ keys) }
{
    if slots.is_empty() {
        return;
    }
    let at = slot_of(&key, slots.len());
    slots[at] = Slot {
        key,
        place: Some(place),
    };
}
