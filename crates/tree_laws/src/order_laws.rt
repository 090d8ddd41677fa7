//! Laws of the one tree about files and the order of their versions, of every trace whose records come as the lawful trace has them.
ghost use Rattle.std.specs.Prelude.{ℕ, List, ◌∷◌};
ghost use Rattle.locus_ids.specs.declared.config.Config.{Config};
ghost use Rattle.locus_ids.specs.declared.ids.EpochId.{EpochId};
ghost use Rattle.locus_ids.specs.declared.ids.FileId.{FileId};
ghost use Rattle.the_run.specs.Worlds.{Line};
ghost use Rattle.tree_model.specs.Folds.{Trace};
ghost use Rattle.tree_model.specs.Tree.{tree_of};
ghost use Rattle.trace_book.specs.declared.record.Record.{Record};
ghost use Rattle.lawful_trace.specs.Lawful.{MayCome};
ghost use Rattle.tree_laws.specs.Following.{IsFollowed, MayPrint, RowsAreLawful};
ghost use Rattle.tree_laws.specs.Instances.{IsFull, IsUsed};
ghost use Rattle.tree_laws.specs.Printed.{entries};
ghost use Rattle.tree_laws.specs.Orders.Alone.{AreAlone};
ghost use Rattle.tree_laws.specs.Orders.Joining.{NoPackComes, PacksAreOfSites};
ghost use Rattle.tree_laws.specs.Orders.Keeping.{KeepsVersions};
ghost use Rattle.tree_laws.specs.Orders.Standing.{VersionsStand};

/// Where each record comes as the lawful trace has it, the open instances of a file exclude each other in each tree: of any two
/// both only read. It is the rule of many readers or one writer, as the grants of the tree keep it.
pub fn open_instances_exclude_each_other()
    ensures rows { (c : Config) (trace : Trace) → RowsAreLawful c trace → (e : EpochId) (group : ℕ) → AreAlone (tree_of c e group trace).instances }
    ensures told { (c : Config) (trace : List Line) → IsFollowed c trace → (e : EpochId) (group : ℕ) → AreAlone (tree_of c e group (entries trace)).instances }
{}

/// Where each record comes as the lawful trace has it, each version that a tree knows stands in the history: what was brought
/// to an epoch or published in it, what a site has in it, and what an open instance has committed.
pub fn known_versions_stand()
    ensures rows { (c : Config) (trace : Trace) → RowsAreLawful c trace → VersionsStand c trace }
    ensures told { (c : Config) (trace : List Line) → IsFollowed c trace → VersionsStand c (entries trace) }
{}

/// While an open instance of a file isn't only read, the versions of the file that are kept in the epoch stay, whatever record
/// comes but the release of that instance, where what is committed is a new version.
pub fn kept_versions_stay()
    ensures rows { (c : Config) (line : ℕ) (r : Record) (before : Trace) → PacksAreOfSites c → MayCome c before r → RowsAreLawful c before → KeepsVersions c line r before }
    ensures told { (c : Config) (line : ℕ) (r : Record) (trace : List Line) → PacksAreOfSites c → MayPrint c trace r → IsFollowed c trace → KeepsVersions c line r (entries trace) }
{}

/// Once a group has started in an epoch, no site with a pack of it may join the epoch any more: all its members with a pack have
/// joined, and none joins twice. The packs of each group are at some of sites 1 to 16.
pub fn packs_join_before_the_start()
    ensures rows { (c : Config) (before : Trace) → PacksAreOfSites c → RowsAreLawful c before → NoPackComes c before }
    ensures told { (c : Config) (trace : List Line) → PacksAreOfSites c → IsFollowed c trace → NoPackComes c (entries trace) }
{}

/// A number that a storage site has used in an epoch, for a file that it holds or for a make that it has begun, stays used
/// whatever is told; so a site whose numbers are all used has none for good.
pub fn used_numbers_stay_used()
    ensures used { (c : Config) (x : Line) (older : List Line) (e : EpochId) (ss : ℕ) (f : FileId) → IsUsed c older e ss f → IsUsed c (x ∷ older) e ss f }
    ensures full { (c : Config) (x : Line) (older : List Line) (e : EpochId) (ss group : ℕ) → IsFull c older e ss group → IsFull c (x ∷ older) e ss group }
{}
