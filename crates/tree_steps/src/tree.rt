ghost use Rattle.std.specs.Prelude.{◌≡◌, ◌==◌, ◌&&◌, true};
ghost use Rattle.std.specs.Option.{option_copied};
ghost use Rattle.trace_book.specs.Same.{same_epoch};
ghost use Rattle.tree_model.specs.State.{empty_tree, instance_in, is_granted_here};

use locus_ids::{Brought, CallId, Config, EpochId, ItemList, Members, Serial};
use std::alloc::Global;
use std::marker::Model;
use tree_model::{AcceptedCall, Granted, Instance};
use tree_tables::{Copies, Instances, group_granted};

/// The one tree of an epoch and a group, as the records so far lead to it: what later steps ask of these records, and
/// not the records.
pub struct TreeTables {
    pub(crate) config: Config,
    pub(crate) epoch: EpochId,
    pub(crate) group: u8,
    pub(crate) members: Option<Members>,
    pub(crate) inside: ItemList<u8>,
    pub(crate) copies: Copies,
    pub(crate) known: ItemList<Brought>,
    pub(crate) started: bool,
    pub(crate) calls: ItemList<AcceptedCall>,
    pub(crate) grants: ItemList<Granted>,
    pub(crate) instances: Instances,
    pub(crate) makes: ItemList<CallId>,
}

// Taken apart in one place: where a tree is dropped, the prover sees one call.
impl Drop for TreeTables {
    fn drop(self) {
        let TreeTables {
            config: _,
            epoch: _,
            group: _,
            members: _,
            inside: _,
            copies: _,
            known: _,
            started: _,
            calls: _,
            grants: _,
            instances: _,
            makes: _,
        } = self;
    }
}

impl Model for TreeTables {
    ghost use Rattle.tree_model.specs.State.{TreeState};

    ghost Value = { TreeState };

    ghost view = { λ t. record {
      config = t.config;
      epoch = t.epoch;
      group = t.group;
      members = t.members;
      inside = t.inside;
      copies = t.copies;
      known = t.known;
      started = t.started;
      calls = t.calls;
      grants = t.grants;
      instances = t.instances;
      makes = t.makes;
    } };
}

impl TreeTables {
    /// The tree of this epoch and group before the first record. What it keeps later comes from this allocator.
    pub fn new(alloc: Global, config: Config, epoch: EpochId, group: u8) -> TreeTables
        ensures { result ≡ empty_tree config epoch group }
    {
        TreeTables {
            config,
            epoch,
            group,
            members: None,
            inside: ItemList::new(alloc),
            copies: Copies::new(alloc),
            known: ItemList::new(alloc),
            started: false,
            calls: ItemList::new(alloc),
            grants: ItemList::new(alloc),
            instances: Instances::new(alloc),
            makes: ItemList::new(alloc),
        }
    }

    /// The group has started.
    pub fn start(&mut self)
        ensures { self.new ≡ record self.old { started = true } }
    {
        self.started = true;
    }

    /// The open instance of this name.
    pub fn instance(&self, inst: Serial) -> Option<&Instance>
        ensures { option_copied result ≡ instance_in self.now inst }
    {
        self.instances.named(inst)
    }

    /// The epoch and the group are those of this tree.
    pub fn is_here(&self, epoch: EpochId, group: u8) -> bool
        ensures { result ≡ (same_epoch epoch self.now.epoch && (group == self.now.group)) }
    {
        epoch == self.epoch && group == self.group
    }

    /// The epoch is that of this tree.
    pub fn is_of(&self, epoch: EpochId) -> bool
        ensures { result ≡ same_epoch epoch self.now.epoch }
    {
        epoch == self.epoch
    }

    /// The instance was granted in the group of the tree.
    pub fn is_granted_here(&self, inst: Serial) -> bool
        ensures { result ≡ is_granted_here self.now inst }
    {
        group_granted(self.grants.as_slice(), inst, self.group)
    }

    /// Which group the tree is of.
    pub fn group(&self) -> u8
        ensures { result ≡ self.now.group }
    {
        self.group
    }

    /// The versions that were brought to the epoch or published in it.
    pub fn known(&self) -> &[Brought]
        ensures { result.now ≡ self.now.known }
    {
        self.known.as_slice()
    }

    /// The allocator that the lists are kept with.
    pub fn allocator(&self) -> Global {
        self.known.allocator()
    }
}
