//! Laws of the one tree about kept versions: whole contents are asked of kept versions alone, and who has the only kept version at least
//! has it.
ghost use Rattle.std.specs.Prelude.{ℕ, ◌≡◌, ◌⊎◌, true, List, [], ◌∷◌, Some};
ghost use Rattle.locus_ids.specs.declared.config.Config.{Config};
ghost use Rattle.locus_ids.specs.declared.ids.CallId.{CallId};
ghost use Rattle.locus_ids.specs.declared.ids.EpochId.{EpochId};
ghost use Rattle.locus_ids.specs.declared.ids.FileId.{FileId};
ghost use Rattle.locus_ids.specs.declared.ids.Stamp.{Stamp};
ghost use Rattle.locus_ids.specs.declared.ids.Serial.{Serial};
ghost use Rattle.trace_book.specs.declared.operation.Op.TheVariants as op;
ghost use Rattle.trace_book.specs.declared.operation.What.TheVariants as what;
ghost use Rattle.call_rules.specs.declared.want.Want.TheVariants as want;
ghost use Rattle.tree_laws.specs.of_the_run.Worlds.{Line};
ghost use Rattle.tree_model.specs.State.{has_stamp};
ghost use Rattle.tree_model.specs.Tree.{kept_in};
ghost use Rattle.tree_laws.specs.of_lawful_trace.TreeRows.{IsCallIn};
ghost use Rattle.tree_laws.specs.Calls.{Asks};
ghost use Rattle.tree_laws.specs.Following.{IsFollowed};
ghost use Rattle.tree_laws.specs.Instances.{HasAtLeast, held_in};
ghost use Rattle.tree_laws.specs.Printed.{entries};
ghost use Rattle.tree_laws.specs.Tables.{IsAhead};
ghost use Rattle.store_laws.specs.Holdings.Below.{LawsBelow};
ghost use Rattle.store_laws.specs.Holdings.MendWorking.{MendsNow};

/// A call that asks the whole content of a version asks it of a version that is kept in its epoch: it is a mend, which asks those that
/// were kept when its open was granted, and these are kept while it has the file open.
pub fn whole_contents_are_of_kept_versions()
    ensures { (c : Config) (trace : List Line) (e : EpochId) (d : CallId) (f : FileId) (stamp : Stamp) → IsFollowed c trace → LawsBelow c trace → IsCallIn (entries trace) e d → Asks c trace d (want.Look f (what.Whole stamp)) →
        has_stamp (kept_in c (entries trace) e f) stamp ≡ true }
{}

/// Where one version of a file is kept, a site that has at least it has it, or a writer whose storage site it is has committed above
/// it.
pub fn only_kept_versions_are_had()
    ensures { (c : Config) (trace : List Line) (e : EpochId) (f : FileId) (site : ℕ) (v : Stamp) → IsFollowed c trace → LawsBelow c trace → kept_in c (entries trace) e f ≡ v ∷ [] → HasAtLeast c trace e site f v →
        (held_in c (entries trace) e site f ≡ Some v) ⊎ IsAhead c trace e site f }
{}

/// A call that asks to mend is a mend, to which its instance was granted, and has brought the contents of exactly the versions that
/// are kept of its file, in their order.
pub fn mends_have_all_that_is_kept()
    ensures { (c : Config) (trace : List Line) (e : EpochId) (d : CallId) (i : Serial) → IsFollowed c trace → LawsBelow c trace → IsCallIn (entries trace) e d → Asks c trace d (want.Do i op.Mend) → MendsNow c trace e d i }
{}
