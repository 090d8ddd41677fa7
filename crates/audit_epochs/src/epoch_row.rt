ghost use Rattle.std.specs.Prelude.{◌≡◌};
ghost use Rattle.promises.specs.Past.{unformed};

use crate::{Grants, LeftRow, MakeRow};
use audit_copies::Known;
use audit_instances::Instances;
use locus_ids::{EpochId, FileId, ItemList, Members};
use std::alloc::Global;
use std::marker::Model;

/// An epoch, with its one tree of each group. Contracts see an `Epoch`.
pub struct EpochRow {
    pub(crate) id: EpochId,
    pub(crate) members: Members,
    pub(crate) joined: ItemList<u8>,
    pub(crate) left: ItemList<LeftRow>,
    pub(crate) known: Known,
    pub(crate) started: ItemList<u8>,
    pub(crate) granted: Grants,
    pub(crate) opened: Instances,
    pub(crate) makes: ItemList<MakeRow>,
    pub(crate) unmended: ItemList<FileId>,
}

// Taken apart in one place: where an epoch is dropped, the prover sees one call.
impl Drop for EpochRow {
    fn drop(self) {
        let EpochRow {
            id: _,
            members: _,
            joined: _,
            left: _,
            known: _,
            started: _,
            granted: _,
            opened: _,
            makes: _,
            unmended: _,
        } = self;
    }
}

impl Model for EpochRow {
    ghost use Rattle.promises.specs.Past.{Epoch};

    ghost Value = { Epoch };

    ghost view = { λ t. record {
      id = t.id;
      members = t.members;
      joined = t.joined;
      left = t.left;
      known = t.known;
      started = t.started;
      granted = t.granted;
      opened = t.opened;
      makes = t.makes;
      unmended = t.unmended;
    } };
}

impl EpochRow {
    /// An epoch of these members that nobody has joined. What it keeps later comes from this allocator.
    pub fn formed(alloc: Global, id: EpochId, members: Members) -> EpochRow
        ensures { result ≡ record (unformed id) { members = members } }
    {
        EpochRow {
            id,
            members,
            joined: ItemList::new(alloc),
            left: ItemList::new(alloc),
            known: Known::new(alloc),
            started: ItemList::new(alloc),
            granted: Grants::new(alloc),
            opened: Instances::new(alloc),
            makes: ItemList::new(alloc),
            unmended: ItemList::new(alloc),
        }
    }

    pub fn id(&self) -> EpochId
        ensures { result ≡ self.now.id }
    {
        self.id
    }

    pub fn members(&self) -> Members
        ensures { result ≡ self.now.members }
    {
        self.members
    }

    /// The sites that are or have been in it.
    pub fn joined(&self) -> &[u8]
        ensures { result.now ≡ self.now.joined }
    {
        self.joined.as_slice()
    }

    /// What sites had when they left it, the last first.
    pub fn left(&self) -> &[LeftRow]
        ensures { result.now ≡ self.now.left }
    {
        self.left.as_slice()
    }

    /// The versions that were brought to it or published in it, ascending.
    pub fn known(&self) -> &Known
        ensures { result.now ≡ self.now.known }
    {
        &self.known
    }

    /// The groups that have started.
    pub fn started(&self) -> &[u8]
        ensures { result.now ≡ self.now.started }
    {
        self.started.as_slice()
    }

    /// All grants, the latest first.
    pub fn granted(&self) -> &Grants
        ensures { result.now ≡ self.now.granted }
    {
        &self.granted
    }

    /// The open instances, the earliest granted first.
    pub fn opened(&self) -> &Instances
        ensures { result.now ≡ self.now.opened }
    {
        &self.opened
    }

    /// The makes that are underway.
    pub fn makes(&self) -> &[MakeRow]
        ensures { result.now ≡ self.now.makes }
    {
        self.makes.as_slice()
    }

    /// The directories of which a mend was refused for good.
    pub fn unmended(&self) -> &[FileId]
        ensures { result.now ≡ self.now.unmended }
    {
        self.unmended.as_slice()
    }
}
