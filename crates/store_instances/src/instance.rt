ghost use Rattle.std.specs.Prelude.{◌≡◌, length};
ghost use Rattle.role_steps.specs.Storage.{is_open};
ghost use Rattle.store_instances.specs.Stores.{is_running};

use keyed_tables::{Keyed, serial_key};
use locus_ids::sizes::SITES;
use locus_ids::{FileId, Kind, Mode, Serial, SiteId, Sites, Stamp, Stamps};
use operation_effects::OpenWork;
use role_steps::Stage;
use std::marker::Model;
use trace_book::Outcome;
use version_vector::Vector;

/// An open instance at its storage site, whose working content is in memory. Contracts see it as an `Instance`.
pub struct StoreInstance {
    /// The using site.
    pub(crate) us: SiteId,
    pub(crate) serial: u32,
    pub(crate) file: FileId,
    pub(crate) mode: Mode,
    pub(crate) set: Sites,
    pub(crate) kind: Kind,
    /// The vector on which its next version stands, and that version's parents.
    pub(crate) vector: Vector<SITES>,
    pub(crate) parents: Stamps,
    /// The size at its opening, in bytes.
    pub(crate) size: u32,
    pub(crate) work: OpenWork,
    /// What its last operation gave.
    pub(crate) answered: Option<Outcome>,
    pub(crate) stage: Stage,
}

impl Drop for StoreInstance {
    /// Taken apart in one place: where an instance is dropped, the prover sees one call.
    fn drop(self) {
        let StoreInstance {
            us: _,
            serial: _,
            file: _,
            mode: _,
            set: _,
            kind: _,
            vector: _,
            parents: _,
            size: _,
            work: _,
            answered: _,
            stage: _,
        } = self;
    }
}

impl Model for StoreInstance {
    ghost use Rattle.role_steps.specs.declared.instances.Instance.{Instance};

    ghost Value = { Instance };

    ghost view = { λ i. record { inst = record { us = i.us; serial = i.serial }; file = i.file; mode = i.mode; set = i.set; kind = i.kind; vector = i.vector; parents = i.parents; size = i.size; work = i.work; answered = i.answered; stage = i.stage } };
}

impl Keyed for StoreInstance {
    ghost use Rattle.role_steps.specs.Storage.{instance_key};

    ghost key = { instance_key };

    fn key(&self) -> u64 {
        serial_key(self.inst())
    }
}

impl StoreInstance {
    /// Its name within the epoch.
    pub fn inst(&self) -> Serial
        ensures { result ≡ self.now.inst }
    {
        Serial {
            us: self.us.get(),
            serial: self.serial,
        }
    }

    /// It is open until the synchronization site has answered its close.
    pub fn is_open(&self) -> bool
        ensures { result ≡ is_open self.now.stage }
    {
        match self.stage {
            Stage::Running => true,
            Stage::Closing { .. } => true,
            Stage::Closed { .. } => false,
        }
    }

    /// Its close has not begun.
    pub(crate) fn is_running(&self) -> bool
        ensures { result ≡ is_running self.now.stage }
    {
        match self.stage {
            Stage::Running => true,
            Stage::Closing { .. } => false,
            Stage::Closed { .. } => false,
        }
    }

    /// A commit is owed.
    pub(crate) fn owes(&self) -> bool
        ensures { result ≡ self.now.work.owes }
    {
        self.work.owes
    }

    /// The version that it stands on.
    pub(crate) fn last(&self) -> Option<Stamp>
        ensures { result ≡ self.now.work.last }
    {
        self.work.last
    }

    /// Its file.
    pub fn file(&self) -> FileId
        ensures { result ≡ self.now.file }
    {
        self.file
    }

    pub fn mode(&self) -> Mode
        ensures { result ≡ self.now.mode }
    {
        self.mode
    }

    /// How many pages of its content were changed since its last commit.
    pub fn changed(&self) -> usize
        ensures { result ≡ length self.now.work.changed }
    {
        self.work.changed.len()
    }

    /// Operations done.
    pub(crate) fn done(&self) -> u32
        ensures { result ≡ self.now.work.ops }
    {
        self.work.ops
    }
}
