ghost use Rattle.std.specs.Prelude.{◌≡◌, ◌<◌, [], ◌∷◌, length, IfSome, OnOk, OnErr};
ghost use Rattle.key_places.specs.Places.{place_of};

use crate::key::Key;
use locus_ids::NoMemory;
use std::alloc::Global;
use std::collections::HashMap;
use std::marker::Model;

/// Keys in the order in which they came, each found by a map. Contracts see the newest one first.
#[derive(Drop)]
pub(crate) struct AllPlaces {
    keys: Vec<Key>,
    newest: HashMap<Key, usize>,
}

impl Model for AllPlaces {
    ghost use Rattle.std.specs.Prelude.{◌≡◌, List, reverse};
    ghost use Rattle.std.specs.HashMap.{get};
    ghost use Rattle.key_places.specs.declared.key.Key.{Key};

    ghost Value = { List Key };

    ghost use Rattle.key_places.specs.Keys.{same_key};
    ghost use Rattle.key_places.specs.Places.{place_of};

    ghost view = { λ p. reverse p.keys.items };

    ghost invariant = { λ p. (k : Key) → get same_key p.newest k ≡ place_of k (reverse p.keys.items) };
}

impl AllPlaces {
    /// No keys. What is taken later comes from this allocator.
    pub(crate) fn new(alloc: Global) -> AllPlaces
        ensures { result ≡ [] }
    {
        AllPlaces {
            keys: Vec::new(alloc),
            newest: HashMap::new(alloc),
        }
    }

    /// The number of keys.
    pub(crate) fn len(&self) -> usize
        ensures { result ≡ length self.now }
    {
        self.keys.len()
    }

    /// The place of the newest key that equals this one. Its time hangs on no length.
    pub(crate) fn place(&self, key: &Key) -> Option<usize>
        ensures place { result ≡ place_of key.now self.now }
        ensures within { IfSome result (λ place. place < length self.now) }
    {
        self.newest.get(key).copied()
    }

    /// One more key, the newest. After `NoMemory` nothing has changed.
    pub(crate) fn push(&mut self, key: Key) -> Result<(), NoMemory>
        ensures ok { OnOk result (self.new ≡ key ∷ self.old) }
        ensures err { OnErr result (self.new ≡ self.old) }
    {
        let place = self.keys.len();
        self.keys.push(key)?;
        match self.newest.insert(key, place) {
            Ok(_) => Ok(()),
            Err(_) => {
                self.keys.pop();
                Err(NoMemory)
            }
        }
    }

    pub(crate) fn allocator(&self) -> Global {
        *self.keys.allocator()
    }
}
