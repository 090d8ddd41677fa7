ghost use Rattle.std.specs.Prelude.{◌≡◌, ℕ, ◌∷◌, IfOk, OnOk, OnErr};
ghost use Rattle.locus_ids.specs.declared.config.Config.{Config};
ghost use Rattle.locus_ids.specs.declared.ids.EpochId.{EpochId};
ghost use Rattle.tree_model.specs.Folds.{Trace};
ghost use Rattle.tree_model.specs.Histories.{history};
ghost use Rattle.tree_model.specs.State.{empty_tree};
ghost use Rattle.tree_model.specs.Tree.{tree_of};
ghost use Rattle.one_tree.specs.Following.{applied, tree_after};
ghost use Rattle.one_tree.specs.Unfit.{IsUnfit};
ghost use Rattle.one_tree.specs.declared.applied.Applied.TheVariants.{Differs};

use crate::{Applied, TreeFault};
use commit_graph::History;
use locus_ids::{Config, EpochId};
use std::alloc::Global;
use std::marker::Model;
use trace_book::Record;
use tree_steps::TreeTables;

/// The one tree of an epoch and a group, as the records so far lead to it. Contracts see the tree as a value.
#[derive(Drop)]
pub struct OneTree {
    pub(crate) tables: TreeTables,
}

impl Model for OneTree {
    ghost use Rattle.tree_model.specs.State.{TreeState};

    ghost Value = { TreeState };

    ghost view = { λ t. t.tables };
}

impl OneTree {
    /// The tree of this epoch and group before the first record. What it keeps later comes from this allocator.
    pub fn new(alloc: Global, config: Config, epoch: EpochId, group: u8) -> OneTree
        ensures { result ≡ empty_tree config epoch group }
    {
        OneTree {
            tables: TreeTables::new(alloc, config, epoch, group),
        }
    }

    /// Takes the next record of a trace, with the history of the records before it, and says whether the one tree gives it.
    /// The records and the history may be any: neither needs to be lawful. A start, look, grant, refusal, act or release of
    /// this epoch and group that the tree doesn't give differs, and the tree stays; what it needs of any other record is
    /// kept.
    ///
    /// After a fault the tree is as it was. `NoMemory` comes for want of memory alone. `Unfit` comes only for what no lawful
    /// trace has: a history of 4,294,967,295 versions or more, an operation but a commit or an abort of an open instance whose
    /// content is more than 65,536 bytes long, and a mend of versions that can't be joined, where an inode is a file in one
    /// and a directory in another, or one is longer than 4,294,967,295 bytes.
    ///
    /// Most operations look up in the history each file that the storage site has, to count the room: the steps grow as the
    /// files times the versions. A read and a cut need no room, and count none.
    #[tactic(auto, using(crate::proofs::Unfitting::full_so, crate::proofs::Unfitting::record_so))]
    pub fn apply(&mut self, h: &History, r: &Record) -> Result<Applied, TreeFault>
        ensures applied { IfOk result (λ told. told ≡ applied h.now self.old r.now) }
        ensures next { OnOk result (self.new ≡ tree_after h.now self.old r.now) }
        ensures err { OnErr result (self.new ≡ self.old) }
        ensures unfit { result ≡ Err TreeFault.Unfit → IsUnfit h.now self.old r.now }
        // The tree of a trace is the fold of its records.
        ensures fold { IfOk result (λ told. (c : Config) (e : EpochId) (group : ℕ) (before : Trace) (line : ℕ) →
            self.old ≡ tree_of c e group before → h.now ≡ history c before → ¬ told ≡ Differs →
            self.new ≡ tree_of c e group (record { line = line; what = r.now } ∷ before)) }
    {
        if h.len() >= 4_294_967_295 {
            return Err(TreeFault::Unfit);
        }
        let told = self.step(h, r)?;
        Ok(told)
    }
}
