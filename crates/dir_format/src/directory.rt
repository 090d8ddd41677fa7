ghost use Rattle.std.specs.Prelude.{◌≡◌, List, [], length, slice_get, IfOk, OnOk, OnErr};
ghost use Rattle.std.specs.List.{AllByRecursion};
ghost use Rattle.std.specs.Option.{option_copied};
ghost use Rattle.dir_format.specs.Entries.{IsDir, IsEntry, HasKindOf, with_entry};

use crate::Entry;
use crate::place::{Place, place_of};
use field_codec::locus_ids::NoMemory;
use std::alloc::Global;
use std::marker::Model;

/// The entries of a directory, in order, which contracts see as a list.
#[derive(Drop)]
pub struct Dir {
    entries: Vec<Entry>,
}

impl Model for Dir {
    ghost use Rattle.std.specs.Prelude.{List};
    ghost use Rattle.dir_format.specs.declared.entry.Entry.{Entry};

    ghost Value = { List Entry };

    ghost use Rattle.dir_format.specs.Entries.{IsDir};

    ghost view = { λ d. d.entries.items };

    ghost invariant = { λ d. IsDir d.entries.items };
}

impl Dir {
    /// No entries. What the directory takes later comes from this allocator.
    pub fn new(alloc: Global) -> Dir
        ensures { result ≡ [] }
    {
        Dir {
            entries: Vec::new(alloc),
        }
    }

    /// The directory of these entries.
    pub fn of(entries: Vec<Entry>) -> Dir
        requires { IsDir entries.items }
        ensures { result ≡ entries.items }
    {
        Dir { entries }
    }

    /// All entries, in their order.
    pub fn as_slice(&self) -> &[Entry]
        ensures value { result.now ≡ self.now }
        ensures is_dir { IsDir self.now }
    {
        self.entries.as_slice()
    }

    /// The number of entries.
    pub fn len(&self) -> usize
        ensures { result ≡ length self.now }
    {
        self.entries.len()
    }

    /// The entry at a place, from 0, or `None` exactly where the place is not below the length.
    pub fn get(&self, i: usize) -> Option<&Entry>
        ensures { option_copied result ≡ slice_get self.now i }
    {
        self.entries.get(i)
    }

    /// The allocator that the entries are kept with.
    pub fn allocator(&self) -> Global {
        *self.entries.allocator()
    }

    /// An equal directory, in memory of its own.
    pub fn copy(&self) -> Result<Dir, NoMemory>
        ensures { IfOk result (λ made. made ≡ self.now) }
    {
        let entries = self.entries.clone()?;
        Ok(Dir { entries })
    }

    /// Puts an entry for its pair of name and inode, in its place; all others stay. After `NoMemory` the directory is as it
    /// was.
    pub fn put(&mut self, e: Entry) -> Result<(), NoMemory>
        requires entry { IsEntry e }
        requires kind { HasKindOf e self.old }
        ensures ok { OnOk result (self.new ≡ with_entry e self.old) }
        ensures err { OnErr result (self.new ≡ self.old) }
    {
        match place_of(self.entries.as_slice(), &e) {
            Place::Free(at) => self.entries.insert(at, e)?,
            Place::Taken(at) => self.entries[at] = e,
        }
        Ok(())
    }
}
