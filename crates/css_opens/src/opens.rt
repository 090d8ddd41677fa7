ghost use Rattle.std.specs.Prelude.{◌≡◌, ◌<◌, ◌∷◌, [], ◌++◌, None, Some, true, length, slice_get, slice_set, map, filter, OnOk};
ghost use Rattle.std.specs.Option.{option_copied, option_map};
ghost use Rattle.std.specs.List.{list_any};
ghost use Rattle.commit_graph.specs.Grants.{excluder};
ghost use Rattle.keyed_tables.specs.of_role_steps.Tables.{row, with_latest};
ghost use Rattle.keyed_tables.specs.of_role_steps.Views.{serial_key};
ghost use Rattle.keyed_tables.specs.of_role_steps.Opens.{open_key, is_open_on, is_open_stage, opener_of};
ghost use Rattle.keyed_tables.specs.of_role_steps.declared.synchronizing.OpenRow.{OpenRow};
ghost use Rattle.css_opens.specs.OpenIndex.{busy, with_open_now, settled_open};
ghost use Rattle.css_opens.specs.Settled.{closing_of, is_asked, is_open_some, settled_row, settled_rows};

use crate::now::{OpenNow, exclusion, is_open};
use crate::{Closing, OpenEntry, Progress, Settling};
use keyed_tables::{KeyIndex, Keyed, SortedTable, serial_key};
use locus_ids::{FileId, Kind, Mode, NoMemory, Refusal, Serial, Sites};
use std::alloc::Global;
use std::marker::Model;

/// The opens of a group in the order in which they came. An open is found by halving, and those that are open now are kept
/// beside it, so that ended ones cost nothing.
#[derive(Drop)]
pub struct Opens {
    rows: Vec<OpenEntry>,
    index: KeyIndex,
    open: SortedTable<OpenNow>,
}

impl Model for Opens {
    ghost use Rattle.std.specs.Prelude.{List};
    ghost use Rattle.keyed_tables.specs.of_role_steps.declared.synchronizing.OpenRow.{OpenRow};

    ghost Value = { List OpenRow };

    ghost use Rattle.css_opens.specs.Indexed.{Indexed};

    ghost view = { λ t. t.rows.items };

    ghost invariant = { λ t. Indexed t.rows.items t.index t.open };
}

impl Opens {
    /// No opens. What the table takes later comes from this allocator.
    pub fn new(alloc: Global) -> Opens
        ensures { result ≡ [] }
    {
        Opens {
            rows: Vec::new(alloc),
            index: KeyIndex::new(alloc),
            open: SortedTable::new(alloc),
        }
    }

    /// The open of an instance.
    pub fn find(&self, inst: Serial) -> Option<&OpenEntry>
        ensures { option_copied result ≡ row open_key (serial_key inst) self.now }
    {
        match self.index.place(serial_key(inst)) {
            Some(place) => Some(&self.rows[place]),
            None => None,
        }
    }

    /// Why the instances that are open exclude an open of the file: the earliest granted of those that exclude it.
    pub fn exclusion(&self, mode: Mode, file: FileId) -> Option<Refusal>
        ensures { result ≡ option_map busy (excluder mode (map opener_of (filter (is_open_on file) self.now))) }
    {
        exclusion(self.open.as_slice(), mode, file)
    }

    /// An instance of the file is open.
    pub fn is_open(&self, file: FileId) -> bool
        ensures { result ≡ list_any (is_open_on file) self.now }
    {
        is_open(self.open.as_slice(), file)
    }

    /// What a close of the instance is.
    pub fn closing(&self, inst: Serial) -> Closing
        ensures { result ≡ closing_of (row open_key (serial_key inst) self.now) }
    {
        match self.find(inst) {
            Some(entry) => entry.closing(),
            None => Closing::Unknown,
        }
    }

    /// The storage site of the instance was asked and hasn't answered.
    pub fn is_asked(&self, inst: Serial) -> bool
        ensures { result ≡ is_asked (row open_key (serial_key inst) self.now) }
    {
        match self.find(inst) {
            Some(entry) => matches!(entry.progress, Progress::Asked),
            None => false,
        }
    }

    /// A new open, after all others.
    pub fn push(&mut self, entry: OpenEntry) -> Result<(), NoMemory>
        requires { row open_key (open_key entry) self.old ≡ None }
        ensures { OnOk result (self.new ≡ with_latest open_key entry self.old) }
    {
        match push_to(&mut self.rows, &mut self.index, &mut self.open, entry) {
            Ok(()) => Ok(()),
            Err(fault) => {
                forget(&mut self.rows, &mut self.index, &mut self.open);
                Err(fault)
            }
        }
    }

    /// An open instance goes on: what becomes of it, in its row.
    pub fn settle(&mut self, inst: Serial, settling: Settling) -> Result<(), NoMemory>
        requires { is_open_some (row open_key (serial_key inst) self.old) ≡ true }
        ensures { OnOk result (self.new ≡ settled_rows settling (row open_key (serial_key inst) self.old) self.old) }
    {
        let Some(place) = self.index.place(serial_key(inst)) else {
            return Ok(());
        };
        match settle_at(&mut self.rows, &mut self.open, place, settling) {
            Ok(()) => Ok(()),
            Err(fault) => {
                forget(&mut self.rows, &mut self.index, &mut self.open);
                Err(fault)
            }
        }
    }
}

/// Forgets all opens: what is left where memory has run out.
fn forget(rows: &mut Vec<OpenEntry>, index: &mut KeyIndex, instances: &mut SortedTable<OpenNow>)
    ensures rows { rows.new.items ≡ [] }
    ensures index { index.new ≡ [] }
    ensures open { instances.new ≡ [] }
{
    *index = KeyIndex::new(*rows.allocator());
    rows.clear();
    instances.clear();
}

fn push_to(
    rows: &mut Vec<OpenEntry>,
    index: &mut KeyIndex,
    instances: &mut SortedTable<OpenNow>,
    entry: OpenEntry,
) -> Result<(), NoMemory>
    ensures rows { OnOk result (rows.new.items ≡ rows.old.items ++ entry ∷ []) }
    ensures index { OnOk result (index.new ≡ index.old ++ open_key entry ∷ []) }
    ensures open { OnOk result (instances.new ≡ with_open_now (length rows.old.items) entry instances.old) }
{
    let place = rows.len();
    index.push(entry.key())?;
    if let Some(now) = entry.open_now(place) {
        instances.put(now)?;
    }
    rows.push(entry)?;
    Ok(())
}

fn settle_at(
    rows: &mut Vec<OpenEntry>,
    instances: &mut SortedTable<OpenNow>,
    place: usize,
    settling: Settling,
) -> Result<(), NoMemory>
    requires place { place < length rows.old.items }
    requires open { (r : OpenRow) → slice_get rows.old.items place ≡ Some r → is_open_stage r.stage ≡ true }
    ensures rows { (r : OpenRow) → slice_get rows.old.items place ≡ Some r → OnOk result (rows.new.items ≡ slice_set rows.old.items place (settled_row settling r)) }
    ensures open { (r : OpenRow) → slice_get rows.old.items place ≡ Some r → OnOk result (instances.new ≡ settled_open place (settled_row settling r) instances.old) }
{
    let entry = &mut rows[place];
    entry.settle(settling);
    match entry.open_now(place) {
        Some(now) => instances.put(now)?,
        None => {
            instances.remove(place as u64);
        }
    }
    Ok(())
}
