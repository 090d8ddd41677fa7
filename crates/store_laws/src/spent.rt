//! No mend of any run is refused for want of a number: only removed entries are rescued, and the greatest count is a live entry's.
ghost use Rattle.std.specs.Prelude.{◌≡◌, false, List};
ghost use Rattle.locus_ids.specs.declared.config.Config.{Config};
ghost use Rattle.schedule_lines.specs.declared.line.ScheduleLine.{ScheduleLine};
ghost use Rattle.dir_format.specs.declared.entry.Entry.{Entry};
ghost use Rattle.tree_model.specs.of_dir_reconcile.declared.kept.KeptVector.{KeptVector};
ghost use Rattle.tree_model.specs.of_dir_reconcile.Rescues.{rescue_is_spent};
ghost use Rattle.the_run.specs.Runs.{run_in};
ghost use Rattle.site_laws.specs.Vectors.Written.{past_of};
ghost use Rattle.store_laws.specs.OneTree.SpentMends.{AllMended};

/// Whatever entries a directory has and whatever is kept, no entry that is to be rescued has the greatest count: it stands as removed,
/// so that its count is even, and the greatest count is odd.
pub fn rescues_have_their_numbers()
    ensures { (ds : List Entry) (kept : List KeptVector) → rescue_is_spent ds kept ≡ false }
{}

/// After every schedule no mend was refused for want of a number.
pub fn no_mend_is_spent()
    ensures { (c : Config) (lines : List ScheduleLine) → AllMended (past_of (run_in c lines).trace) }
{}
