ghost use Rattle.std.specs.Prelude.{◌≡◌, ◌<◌, [], ◌∷◌, length, IfSome, OnOk, OnErr};
ghost use Rattle.key_places.specs.Places.{place_of};

use crate::all_places::AllPlaces;
use crate::key::Key;
use crate::recent::{Slot, empty_slots, recent_place, remember};
use locus_ids::NoMemory;
use std::alloc::Global;
use std::marker::Model;

/// How many slots there are for recent keys from the first key on, and at most.
const FEWEST: usize = 16;

const MOST: usize = 8192;

/// Keys in the order in which they came. Contracts see the newest one first; a place is the number of keys that came before,
/// so that it is where the row of the key stands in a table that grows at its end. Most that came not long ago are found without the map.
pub struct Places {
    all: AllPlaces,
    recent: Vec<Slot>,
}

// Taken apart in one place: where a table is dropped, the prover sees one call.
impl Drop for Places {
    fn drop(self) {
        let Places { all: _, recent: _ } = self;
    }
}

impl Model for Places {
    ghost use Rattle.std.specs.Prelude.{List};
    ghost use Rattle.key_places.specs.declared.key.Key.{Key};

    ghost Value = { List Key };

    ghost use Rattle.key_places.specs.Recent.{AreRecent};

    ghost view = { λ p. p.all };

    ghost invariant = { λ p. AreRecent p.recent.items p.all };
}

impl Places {
    /// No keys. What is taken later comes from this allocator.
    pub fn new(alloc: Global) -> Places
        ensures { result ≡ [] }
    {
        Places {
            all: AllPlaces::new(alloc),
            recent: Vec::new(alloc),
        }
    }

    /// The number of keys.
    pub fn len(&self) -> usize
        ensures { result ≡ length self.now }
    {
        self.all.len()
    }

    /// The place of the newest key that equals this one. Its time hangs on no length.
    pub fn place(&self, key: &Key) -> Option<usize>
        ensures place { result ≡ place_of key.now self.now }
        ensures within { IfSome result (λ place. place < length self.now) }
    {
        match recent_place(self.recent.as_slice(), key) {
            Some(place) => Some(place),
            None => self.all.place(key),
        }
    }

    /// One more key, the newest. After `NoMemory` nothing has changed.
    pub fn push(&mut self, key: Key) -> Result<(), NoMemory>
        ensures ok { OnOk result (self.new ≡ key ∷ self.old) }
        ensures err { OnErr result (self.new ≡ self.old) }
    {
        self.make_room()?;
        let place = self.all.len();
        self.all.push(key)?;
        remember(&mut self.recent, key, place);
        Ok(())
    }

    /// Slots for more keys, where there are few; those that there were are left.
    fn make_room(&mut self) -> Result<(), NoMemory>
        ensures { self.new ≡ self.old }
    {
        let many = self.recent.len();
        if self.all.len() < many || many >= MOST {
            return Ok(());
        }
        let wanted = if many == 0 { FEWEST } else { 2 * many };
        self.recent = empty_slots(self.all.allocator(), wanted)?;
        Ok(())
    }
}
