ghost use Rattle.std.specs.Prelude.{◌≡◌, ◌+◌, OnOk};
ghost use Rattle.call_rules.specs.Descriptors.{lowest_free};
ghost use Rattle.promises.specs.Past.{no_site, stamp_in};
ghost use Rattle.audit_sites.specs.Rows.{named_at, boots, stops, leaves, joins, accepts, holds_again, names, takes};

use crate::copies::{drop_file, stamp_in};
use crate::names::{NamedDescriptor, free, hold_again, named_in};
use audit_copies::CopyRow;
use locus_ids::sizes::DESCRIPTORS;
use locus_ids::{EpochId, FileId, NoMemory, Stamp};
use std::alloc::Global;
use std::marker::Model;
use trace_book::{Call, Descriptor};

/// A site, as the records so far tell of it. What it has and what its processes have open, the latest first.
#[derive(Drop)]
pub struct SiteRow {
    pub(crate) number: u8,
    pub(crate) up: bool,
    pub(crate) boot: u32,
    pub(crate) epoch: Option<EpochId>,
    pub(crate) joined: Option<EpochId>,
    pub(crate) accepted: u32,
    pub(crate) descriptors: Vec<NamedDescriptor>,
    pub(crate) held: Vec<CopyRow>,
}

impl Model for SiteRow {
    ghost use Rattle.promises.specs.Past.{Site};

    ghost Value = { Site };

    ghost view = { λ s. record { number = s.number; up = s.up; boot = s.boot; epoch = s.epoch; joined = s.joined; accepted = s.accepted; descriptors = s.descriptors.items; held = s.held.items } };
}

impl SiteRow {
    /// The row of no site.
    pub(crate) fn nobody(alloc: Global) -> SiteRow
        ensures { result ≡ no_site }
    {
        SiteRow {
            number: 0,
            up: false,
            boot: 0,
            epoch: None,
            joined: None,
            accepted: 0,
            descriptors: Vec::new(alloc),
            held: Vec::new(alloc),
        }
    }

    pub fn number(&self) -> u8
        ensures { result ≡ self.now.number }
    {
        self.number
    }

    /// It runs.
    pub fn is_up(&self) -> bool
        ensures { result ≡ self.now.up }
    {
        self.up
    }

    pub fn boot(&self) -> u32
        ensures { result ≡ self.now.boot }
    {
        self.boot
    }

    /// The epoch that it is in.
    pub fn epoch(&self) -> Option<EpochId>
        ensures { result ≡ self.now.epoch }
    {
        self.epoch
    }

    /// The epoch that it joined last in this boot.
    pub fn joined(&self) -> Option<EpochId>
        ensures { result ≡ self.now.joined }
    {
        self.joined
    }

    /// How many calls it has accepted in this boot.
    pub fn accepted(&self) -> u32
        ensures { result ≡ self.now.accepted }
    {
        self.accepted
    }

    /// The version that it has of each file.
    pub fn held(&self) -> &[CopyRow]
        ensures { result.now ≡ self.now.held }
    {
        self.held.as_slice()
    }

    /// The version that it has of the file.
    pub fn stamp_of(&self, file: FileId) -> Option<Stamp>
        ensures { result ≡ stamp_in self.now.held file }
    {
        stamp_in(self.held.as_slice(), file)
    }

    /// What the number of the process stands for.
    pub fn descriptor(&self, process: u8, fd: u16) -> Option<Descriptor>
        ensures { result ≡ named_at self.now process fd }
    {
        named_in(self.descriptors.as_slice(), process, fd)
    }

    /// The lowest free of the 16 descriptors of the process.
    #[tactic(auto, using(crate::proofs::Free::free_here, crate::proofs::Free::free_later))]
    pub fn lowest_free(&self, process: u8) -> Option<u16>
        ensures { result ≡ lowest_free (named_at self.now process) }
    {
        for fd in 0..DESCRIPTORS {
            if self.descriptor(process, fd).is_none() {
                return Some(fd);
            }
        }
        None
    }

    pub(crate) fn boots(&mut self, boot: u32)
        ensures { self.new ≡ boots boot self.old }
    {
        self.up = true;
        self.boot = boot;
        self.joined = None;
        self.accepted = 0;
    }

    pub(crate) fn stops(&mut self)
        ensures { self.new ≡ stops self.old }
    {
        self.up = false;
        self.descriptors.clear();
    }

    pub(crate) fn leaves(&mut self)
        ensures { self.new ≡ leaves self.old }
    {
        self.epoch = None;
    }

    pub(crate) fn joins(&mut self, epoch: EpochId)
        ensures { self.new ≡ joins epoch self.old }
    {
        self.epoch = Some(epoch);
        self.joined = Some(epoch);
    }

    pub(crate) fn accepts(&mut self, process: u8, n: u32, words: &Call)
        requires { n ≡ self.old.accepted + 1 }
        ensures { self.new ≡ accepts process words.now self.old }
    {
        self.accepted = n;
        free(&mut self.descriptors, process, words);
    }

    pub(crate) fn names(
        &mut self,
        process: u8,
        fd: u16,
        descriptor: Descriptor,
    ) -> Result<(), NoMemory>
        ensures number { self.new.number ≡ self.old.number }
        ensures ok { OnOk result (self.new ≡ names (record { process = process; fd = fd; names = descriptor }) self.old) }
    {
        let new = NamedDescriptor {
            process,
            fd,
            names: descriptor,
        };
        self.descriptors.insert(0, new)?;
        Ok(())
    }

    pub(crate) fn holds_again(&mut self, process: u8, fd: u16, opening: Descriptor)
        ensures { self.new ≡ holds_again process fd opening self.old }
    {
        hold_again(self.descriptors.as_mut_slice(), process, fd, opening);
    }

    pub(crate) fn takes(&mut self, file: FileId, stamp: Stamp) -> Result<(), NoMemory>
        ensures number { self.new.number ≡ self.old.number }
        ensures ok { OnOk result (self.new ≡ takes (record { file = file; stamp = stamp }) self.old) }
    {
        drop_file(&mut self.held, file);
        self.held.insert(0, CopyRow { file, stamp })?;
        Ok(())
    }
}
