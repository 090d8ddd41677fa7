ghost use Rattle.std.specs.Prelude.{◌≡◌, ◌++◌, ◌∷◌, ◌-◌, ◌==◌, ℕ, List, [], None, true, cond, filter, length, not, slice_get, OnOk, OnErr};
ghost use Rattle.std.specs.List.{list_any};
ghost use Rattle.role_steps.specs.Tables.{row, total, with_latest};
ghost use Rattle.role_steps.specs.Storage.{free_pages, instance_key, is_open, is_open_of};
ghost use Rattle.store_instances.specs.of_site_packs.Packs.{AreShown};
ghost use Rattle.store_instances.specs.Stores.{store_of, with_made};
ghost use Rattle.storage_site.specs.Standing.{changed_by, is_of};

use crate::steps::StepTable;
use keyed_tables::{KeyIndex, serial_key};
use locus_ids::{FileId, NoMemory};
use role_steps::Step;
use std::alloc::Global;
use std::marker::Model;
use store_instances::StoreInstance;
use store_instances::site_packs::SitePacks;

/// What the storage role of a site has in memory in its epoch: its instances, in the order in which they were opened, and the last
/// commits and adoptions of each file. Contracts see both; the copies are the packs'.
pub struct Store {
    pub(crate) rows: Vec<StoreInstance>,
    pub(crate) index: KeyIndex,
    /// The places of the open ones, ascending.
    pub(crate) standing: Vec<usize>,
    pub(crate) steps: StepTable,
}

impl Drop for Store {
    /// Taken apart in one place: where a store is dropped, the prover sees one call.
    fn drop(self) {
        let Store {
            rows: _,
            index: _,
            standing: _,
            steps: _,
        } = self;
    }
}

impl Model for Store {
    ghost use Rattle.std.specs.Prelude.{◌≡◌, map};
    ghost use Rattle.role_steps.specs.Storage.{instance_key};
    ghost use Rattle.store_instances.specs.Stores.{StoreState};
    ghost use Rattle.storage_site.specs.Standing.{open_from};

    ghost Value = { StoreState };

    ghost view = { λ s. record { instances = s.rows.items; steps = s.steps } };

    ghost invariant = { λ s. (s.index ≡ map instance_key s.rows.items) × (s.standing.items ≡ open_from 0 s.rows.items) };
}

impl Store {
    /// No instances, and nothing is remembered. What the store takes later comes from this allocator.
    pub fn new(alloc: Global) -> Store
        ensures { result ≡ record { instances = []; steps = [] } }
    {
        Store {
            rows: Vec::new(alloc),
            index: KeyIndex::new(alloc),
            standing: Vec::new(alloc),
            steps: StepTable::new(alloc),
        }
    }

    /// The site leaves its epoch: all instances are dropped, and all steps forgotten.
    pub fn leave(&mut self)
        ensures { self.new ≡ record { instances = []; steps = [] } }
    {
        self.index = KeyIndex::new(*self.rows.allocator());
        self.rows.clear();
        self.standing.clear();
        self.steps.clear();
    }

    /// The file has an open instance here.
    pub fn has_open(&self, file: FileId) -> bool
        ensures { result ≡ list_any (is_open_of file) self.now.instances }
    {
        any_of(self.rows.as_slice(), self.standing.as_slice(), file)
    }

    /// The pages of the group's pack that neither a copy has nor an open instance has changed.
    pub fn free_pages(&self, packs: &SitePacks, group: u8) -> u16
        ensures { (image : List ℕ) → AreShown packs.now.packs image → result ≡ free_pages (store_of self.now packs.now image) group }
    {
        let free = packs.free_pages(group);
        less_changed(self.rows.as_slice(), self.standing.as_slice(), free, group)
    }

    /// What a call made of a file, if anything, is remembered.
    pub(crate) fn remember(&mut self, file: FileId, made: Option<Step>) -> Result<(), NoMemory>
        ensures { OnOk result (self.new ≡ record self.old { steps = with_made file made self.old.steps }) }
    {
        match made {
            Some(step) => {
                self.steps.remember(file, step)?;
                Ok(())
            }
            None => Ok(()),
        }
    }

    /// An open instance of a new name, after all others. After `NoMemory` the store is as it was.
    pub(crate) fn push(&mut self, new: StoreInstance) -> Result<(), NoMemory>
        requires absent { row instance_key (instance_key new) self.old.instances ≡ None }
        requires stands { is_open new.stage ≡ true }
        ensures { OnOk result (self.new ≡ record self.old { instances = with_latest instance_key new self.old.instances }) }
    {
        let place = next_place(self.rows.as_slice());
        self.standing.push(place)?;
        match push_row(&mut self.rows, &mut self.index, new) {
            Ok(()) => Ok(()),
            Err(fault) => {
                self.standing.pop();
                Err(fault)
            }
        }
    }
}

fn next_place(rows: &[StoreInstance]) -> usize
    ensures { result ≡ length rows.now }
{
    rows.len()
}

/// One row more with its key, after all others.
fn push_row(
    rows: &mut Vec<StoreInstance>,
    index: &mut KeyIndex,
    new: StoreInstance,
) -> Result<(), NoMemory>
    ensures rows { OnOk result (rows.new.items ≡ rows.old.items ++ new ∷ []) }
    ensures index { OnOk result (index.new ≡ index.old ++ instance_key new ∷ []) }
    ensures kept { OnErr result (rows.new.items ≡ rows.old.items) }
    ensures known { OnErr result (index.new ≡ index.old) }
{
    let key = serial_key(new.inst());
    rows.push(new)?;
    match index.push(key) {
        Ok(()) => Ok(()),
        Err(fault) => {
            rows.pop();
            Err(fault)
        }
    }
}

/// The instance of a place has ended, or is still open: only open ones have their place kept.
pub(crate) fn keep_open(standing: &mut Vec<usize>, place: usize, is_open: bool)
    ensures { standing.new.items ≡ cond is_open standing.old.items (filter (λ q. not (q == place)) standing.old.items) }
{
    if !is_open {
        standing.retain(|q| *q != place);
    }
}

/// One of the instances at these places is of the file.
fn any_of(rows: &[StoreInstance], standing: &[usize], file: FileId) -> bool
    ensures { result ≡ list_any (λ q. is_of file (slice_get rows.now q)) standing.now }
{
    standing.iter().any(|place| is_of(rows, *place, file))
}

fn is_of(rows: &[StoreInstance], place: usize, file: FileId) -> bool
    ensures { result ≡ is_of file (slice_get rows.now place) }
{
    match rows.get(place) {
        Some(row) => row.file() == file,
        None => false,
    }
}

/// What is left of so many pages when the instances at these places have theirs, where they are open ones of the group.
fn less_changed(rows: &[StoreInstance], standing: &[usize], free: u16, group: u8) -> u16
    ensures { result ≡ free - total (λ q. changed_by group (slice_get rows.now q)) standing.now }
{
    let mut left = free;
    for place in standing {
        left = less_at(rows, *place, left, group);
    }
    left
}

fn less_at(rows: &[StoreInstance], place: usize, free: u16, group: u8) -> u16
    ensures { result ≡ free - changed_by group (slice_get rows.now place) }
{
    let Some(row) = rows.get(place) else {
        return free;
    };
    if !row.is_open() || row.file().group != group {
        return free;
    }
    let changed = row.changed().min(usize::from(free));
    free - changed as u16
}
