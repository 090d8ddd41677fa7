ghost use Rattle.std.specs.Prelude.{◌≡◌, ℕ, ◌<◌, ◌≤◌, [], MatchResult, length, None, slice_get, slice_set, slice_index_or, OnOk, OnErr, ◌==◌};
ghost use Rattle.std.specs.Option.{option_copied};
ghost use Rattle.role_steps.specs.Tables.{row, with_row, without_row};
ghost use Rattle.keyed_tables.specs.Rising.{Rising};

use crate::Keyed;
use crate::rows::{find, place_in, put};
use locus_ids::NoMemory;
use std::alloc::Global;
use std::marker::Model;

/// Rows in ascending order of their keys, one for each key. A row is found by halving, and a new one moves those above it.
#[derive(Drop)]
pub struct SortedTable<T: Keyed> {
    rows: Vec<T>,
}

impl<T: Keyed> Model for SortedTable<T> {
    ghost use Rattle.std.specs.Prelude.{List};
    ghost use Rattle.keyed_tables.specs.Rising.{Rising};

    ghost Value = { List T };

    ghost view = { λ t. t.rows.items };

    ghost invariant = { λ t. Rising T.key t.rows.items };
}

impl<T: Keyed> SortedTable<T> {
    /// No rows. What the table takes later comes from this allocator.
    pub fn new(alloc: Global) -> SortedTable<T>
        ensures { result ≡ [] }
    {
        SortedTable {
            rows: Vec::new(alloc),
        }
    }

    /// All rows, the one of the least key first.
    pub fn as_slice(&self) -> &[T]
        ensures rows { result.now ≡ self.now }
        ensures rising { Rising T.key self.now }
    {
        self.rows.as_slice()
    }

    /// The number of rows.
    pub fn len(&self) -> usize
        ensures { result ≡ length self.now }
    {
        self.rows.len()
    }

    /// There is no row.
    pub fn is_empty(&self) -> bool
        ensures { result ≡ (length self.now == 0) }
    {
        self.rows.is_empty()
    }

    /// The row at a place, from 0, or `None` exactly where the place is not below the length.
    pub fn get(&self, place: usize) -> Option<&T>
        ensures { option_copied result ≡ slice_get self.now place }
    {
        self.rows.get(place)
    }

    /// The row of a key.
    pub fn find(&self, key: u64) -> Option<&T>
        ensures { option_copied result ≡ row T.key key self.now }
    {
        find(self.rows.as_slice(), key)
    }

    /// Where the row of a key stands, or where it would come.
    pub fn place(&self, key: u64) -> Result<usize, usize>
        ensures row { MatchResult result (λ i. (i < length self.now) × (row T.key key self.now ≡ slice_get self.now i)) (λ i. (i ≤ length self.now) × (row T.key key self.now ≡ None)) }
        ensures with { (x : T) → T.key x ≡ key → MatchResult result (λ i. with_row T.key x self.now ≡ slice_set self.now i x) (λ i. Unit {0}) }
    {
        place_in(self.rows.as_slice(), key)
    }

    /// The allocator that the rows are kept with.
    pub fn allocator(&self) -> Global {
        *self.rows.allocator()
    }
}

impl<T: Keyed + Drop> SortedTable<T> {
    /// Brings a row to its place, in place of the one with its key. After `NoMemory` the table is as it was.
    pub fn put(&mut self, row: T) -> Result<(), NoMemory>
        ensures ok { OnOk result (self.new ≡ with_row T.key row self.old) }
        ensures err { OnErr result (self.new ≡ self.old) }
    {
        put(&mut self.rows, row)
    }

    /// Takes the row of a key away.
    pub fn remove(&mut self, key: u64) -> Option<T>
        ensures removed { result ≡ row T.key key self.old }
        ensures left { self.new ≡ without_row T.key key self.old }
    {
        match place_in(self.rows.as_slice(), key) {
            Ok(place) => Some(self.rows.remove(place)),
            Err(_) => None,
        }
    }

    /// Takes all rows away.
    pub fn clear(&mut self)
        ensures { self.new ≡ [] }
    {
        self.rows.clear();
    }
}
