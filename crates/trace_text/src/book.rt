ghost use Rattle.std.specs.Prelude.{◌≡◌, ℕ, ◌<◌, ◌^◌, List, [], ◌∷◌, ◌++◌, length, slice_get, IfOk, OnOk, OnErr};
ghost use Rattle.std.specs.Option.{option_copied};

use locus_ids::{ItemList, NoMemory};
use std::alloc::Global;
use std::marker::Model;
use trace_book::{Entry, Record};

/// A trace, the earliest entry first.
#[derive(Drop)]
pub struct Book {
    entries: ItemList<Entry>,
}

impl Model for Book {
    ghost use Rattle.std.specs.Prelude.{List};
    ghost use Rattle.trace_book.specs.declared.entry.Entry.{Entry};

    ghost Value = { List Entry };

    ghost view = { λ b. b.entries };
}

impl Book {
    pub fn new(alloc: Global) -> Book
        ensures { result ≡ [] }
    {
        Book {
            entries: ItemList::new(alloc),
        }
    }

    /// Adds the latest record.
    pub fn push(&mut self, line: u32, what: Record) -> Result<(), NoMemory>
        ensures ok { OnOk result (self.new ≡ self.old ++ record { line = line; what = what } ∷ []) }
        ensures err { OnErr result (self.new ≡ self.old) }
    {
        self.entries.push(Entry { line, what })
    }

    pub fn len(&self) -> usize
        ensures { result ≡ length self.now }
    {
        self.entries.len()
    }

    /// The entry at this place, from 0: `None` exactly where the place is not below the length.
    pub fn get(&self, place: usize) -> Option<&Entry>
        ensures { option_copied result ≡ slice_get self.now place }
    {
        self.entries.get(place)
    }

    pub fn clear(&mut self)
        ensures { self.new ≡ [] }
    {
        self.entries.clear();
    }

    pub fn as_slice(&self) -> &[Entry]
        ensures { result.now ≡ self.now }
    {
        self.entries.as_slice()
    }
}
