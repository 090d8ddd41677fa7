ghost use Rattle.std.specs.Prelude.{◌≡◌, ℕ, ◌<◌, ◌++◌, [], ◌∷◌, length, IfSome, OnOk, OnErr};
ghost use Rattle.keyed_tables.specs.Places.{place_of};

use crate::{Keyed, SortedTable};
use locus_ids::NoMemory;
use std::alloc::Global;
use std::marker::Model;

/// The place of a key.
#[derive(Clone, Copy)]
pub struct Slot {
    pub key: u64,
    pub place: usize,
}

impl Keyed for Slot {
    ghost use Rattle.keyed_tables.specs.Places.{slot_key};

    ghost key = { slot_key };

    fn key(&self) -> u64 {
        self.key
    }
}

/// Keys in the order in which they came, of which each is found by halving: the index of a table that a role keeps.
#[derive(Drop)]
pub struct KeyIndex {
    keys: Vec<u64>,
    slots: SortedTable<Slot>,
}

impl Model for KeyIndex {
    ghost use Rattle.std.specs.Prelude.{ℕ, ◌≡◌, List};

    ghost Value = { List ℕ };

    ghost use Rattle.role_steps.specs.Tables.{row};
    ghost use Rattle.keyed_tables.specs.Places.{place_of, slot_key, slot_place};

    ghost view = { λ x. x.keys.items };

    ghost invariant = { λ x. (k : ℕ) → slot_place (row slot_key k x.slots) ≡ place_of k x.keys.items };
}

impl KeyIndex {
    /// No keys. What the index takes later comes from this allocator.
    pub fn new(alloc: Global) -> KeyIndex
        ensures { result ≡ [] }
    {
        KeyIndex {
            keys: Vec::new(alloc),
            slots: SortedTable::new(alloc),
        }
    }

    /// The number of keys.
    pub fn len(&self) -> usize
        ensures { result ≡ length self.now }
    {
        self.keys.len()
    }

    /// The place of a key, from 0.
    #[tactic(auto, using(crate::proofs::Placed::place_within_all))]
    pub fn place(&self, key: u64) -> Option<usize>
        ensures place { result ≡ place_of key self.now }
        ensures within { IfSome result (λ place. place < length self.now) }
    {
        match self.slots.find(key) {
            Some(slot) => Some(slot.place),
            None => None,
        }
    }

    /// One more key, after all others. After `NoMemory` the index is as it was.
    pub fn push(&mut self, key: u64) -> Result<(), NoMemory>
        ensures ok { OnOk result (self.new ≡ self.old ++ key ∷ []) }
        ensures err { OnErr result (self.new ≡ self.old) }
    {
        let place = self.len();
        let known = self.place(key).is_some();
        self.keys.push(key)?;
        if known {
            return Ok(());
        }
        match self.slots.put(Slot { key, place }) {
            Ok(()) => Ok(()),
            Err(fault) => {
                self.keys.pop();
                Err(fault)
            }
        }
    }
}
