ghost use Rattle.std.specs.Prelude.{◌≡◌, ◌≤◌, [], ◌∷◌, cond, filter, length, OnOk};
ghost use Rattle.std.specs.List.{find, list_any};
ghost use Rattle.std.specs.Option.{option_copied};
ghost use Rattle.promises.specs.Past.{unformed};
ghost use Rattle.promises.specs.After.{is_epoch};
ghost use Rattle.audit_epochs.specs.Changes.{is_home};
ghost use Rattle.audit_epochs.specs.Places.{place_home, place_in};

use crate::EpochRow;
use key_places::{Places, epoch_key};
use locus_ids::{EpochId, Members, NoMemory};
use std::alloc::Global;
use std::marker::Model;

/// All epochs of a trace, each found by its name. Contracts see the newest first.
#[derive(Drop)]
pub struct Epochs {
    pub(crate) rows: Vec<EpochRow>,
    pub(crate) places: Places,
}

impl Model for Epochs {
    ghost use Rattle.std.specs.Prelude.{◌≡◌, List, reverse};
    ghost use Rattle.key_places.specs.Places.{AllApart};
    ghost use Rattle.promises.specs.Past.{Epoch};
    ghost use Rattle.audit_epochs.specs.Places.{keys_of};

    ghost Value = { List Epoch };

    ghost view = { λ e. reverse e.rows.items };

    ghost invariant = { λ e. (e.places ≡ keys_of (reverse e.rows.items)) × AllApart e.places };
}

impl Epochs {
    /// No epoch. What the table takes later comes from this allocator.
    pub fn new(alloc: Global) -> Epochs
        ensures { result ≡ [] }
    {
        Epochs {
            rows: Vec::new(alloc),
            places: Places::new(alloc),
        }
    }

    /// The allocator that the epochs are kept with.
    pub fn allocator(&self) -> Global {
        *self.rows.allocator()
    }

    /// Where the epoch stands, the oldest at 0.
    pub(crate) fn place(&self, epoch: EpochId) -> Option<usize>
        ensures { result ≡ place_in epoch self.now }
    {
        self.places.place(&epoch_key(epoch))
    }

    /// Where the epoch stands that a site is in, where it is in one.
    pub(crate) fn home_place(&self, home: Option<EpochId>) -> Option<usize>
        ensures { result ≡ place_home home self.now }
    {
        match home {
            Some(epoch) => self.place(epoch),
            None => None,
        }
    }

    /// The epoch of this name.
    pub fn find(&self, epoch: EpochId) -> Option<&EpochRow>
        ensures found { option_copied result ≡ find (is_epoch epoch) self.now }
        ensures one { length (filter (is_epoch epoch) self.now) ≤ 1 }
    {
        match self.place(epoch) {
            Some(place) => self.rows.get(place),
            None => None,
        }
    }

    /// The epoch that a site is in, where it is in one.
    pub fn home(&self, home: Option<EpochId>) -> Option<&EpochRow>
        ensures { option_copied result ≡ find (is_home home) self.now }
    {
        match home {
            Some(epoch) => self.find(epoch),
            None => None,
        }
    }

    /// The epoch is there from its first join on, with the members that this lists.
    pub fn form(&mut self, epoch: EpochId, members: &Members) -> Result<(), NoMemory>
        ensures { OnOk result (self.new ≡ cond (list_any (is_epoch epoch) self.old) self.old (record (unformed epoch) { members = members.now } ∷ self.old)) }
    {
        if self.place(epoch).is_some() {
            return Ok(());
        }
        let alloc = self.allocator();
        self.rows.push(EpochRow::formed(alloc, epoch, *members))?;
        match self.places.push(epoch_key(epoch)) {
            Ok(()) => Ok(()),
            Err(fault) => {
                self.rows.pop();
                Err(fault)
            }
        }
    }
}
