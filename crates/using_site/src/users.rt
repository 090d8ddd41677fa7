ghost use Rattle.std.specs.Prelude.{◌≡◌, ◌==◌, [], List, Option, None, Some};
ghost use Rattle.std.specs.List.{list_any};
ghost use Rattle.commit_graph.specs.Versions.{same_file};
ghost use Rattle.role_steps.specs.declared.users.WaitingCall.{WaitingCall};
ghost use Rattle.role_steps.specs.Requests.{descriptors_of, user_instance};
ghost use Rattle.call_rules.specs.Descriptors.{lowest_free};

use keyed_tables::SortedTable;
use locus_ids::{FileId, ItemList};
use role_steps::page_cache::PageCache;
use role_steps::{DescriptorRow, UserInstance};
use std::alloc::Global;
use std::marker::Model;
use trace_book::Descriptor;
use waiting_calls::{Waiting, descriptor, lowest_free};

/// What the using site of a site has: how many calls it accepted and how many opens it asked in this boot, the calls that
/// wait, the instances that it has open, the descriptors of its processes, the directories whose mend was refused for want of
/// room in this epoch, and pages of versions that were read.
pub struct UsingSite {
    pub(crate) calls: u32,
    pub(crate) serials: u32,
    pub(crate) waiting: SortedTable<Waiting>,
    pub(crate) instances: SortedTable<UserInstance>,
    pub(crate) descriptors: SortedTable<DescriptorRow>,
    pub(crate) hopeless: ItemList<FileId>,
    pub(crate) cache: PageCache,
    pub(crate) alloc: Global,
}

// Taken apart in one place: where a site is dropped, the prover sees one call of this.
impl Drop for UsingSite {
    fn drop(self) {
        let UsingSite {
            calls: _,
            serials: _,
            waiting: _,
            instances: _,
            descriptors: _,
            hopeless: _,
            cache: _,
            alloc: _,
        } = self;
    }
}

impl Model for UsingSite {
    ghost use Rattle.role_steps.specs.Views.{Users};

    ghost Value = { Users };

    ghost view = { λ u. record { calls = u.calls; serials = u.serials; waiting = u.waiting; instances = u.instances; descriptors = u.descriptors; hopeless = u.hopeless; cache = u.cache } };
}

impl UsingSite {
    /// A site that boots: no calls, no instances, no descriptors. What it takes later comes from this allocator.
    pub fn new(alloc: Global) -> UsingSite
        ensures { result ≡ record { calls = 0; serials = 0; waiting = []; instances = []; descriptors = []; hopeless = []; cache = [] } }
    {
        UsingSite {
            calls: 0,
            serials: 0,
            waiting: SortedTable::new(alloc),
            instances: SortedTable::new(alloc),
            descriptors: SortedTable::new(alloc),
            hopeless: ItemList::new(alloc),
            cache: PageCache::new(alloc),
            alloc,
        }
    }

    /// A call of the process waits, so that it may call no other.
    pub fn is_busy(&self, process: u8) -> bool
        ensures { result ≡ list_any (λ (w : WaitingCall). w.process == process) self.now.waiting }
    {
        self.waiting
            .as_slice()
            .iter()
            .any(|waiting| waiting.caller.process == process)
    }

    /// The directory's mend was refused for want of room in this epoch.
    pub fn is_hopeless(&self, file: FileId) -> bool
        ensures { result ≡ list_any (same_file file) self.now.hopeless }
    {
        self.hopeless.as_slice().iter().any(|other| file == *other)
    }

    /// What an open descriptor of the process stands for.
    pub fn descriptor(&self, process: u8, fd: u16) -> Option<Descriptor>
        ensures { result ≡ descriptors_of self.now process fd }
    {
        descriptor(&self.descriptors, process, fd)
    }

    /// The lowest free of the 16 descriptors of the process.
    pub fn lowest_free(&self, process: u8) -> Option<u16>
        ensures { result ≡ lowest_free (descriptors_of self.now process) }
    {
        lowest_free(&self.descriptors, process)
    }

    /// The pages of versions that the site keeps in memory.
    pub fn cache(&self) -> &PageCache
        ensures { result.now ≡ self.now.cache }
    {
        &self.cache
    }

    /// The instance of this serial number.
    pub(crate) fn instance(&self, serial: u32) -> Option<UserInstance>
        ensures { result ≡ user_instance self.now serial }
    {
        self.instances.find(u64::from(serial)).copied()
    }
}
