//! Where the cuts of a trace are exact by the folds over it, the promise of stops holds of it in printed order.
ghost use Rattle.std.specs.Prelude.{ℕ, List, reverse};
ghost use Rattle.schedule_lines.specs.Cluster.{config_of};
ghost use Rattle.schedule_lines.specs.declared.line.ScheduleLine.{ScheduleLine};
ghost use Rattle.tree_model.specs.Folds.{Trace};
ghost use Rattle.promises.specs.Stops.{StopsBy};
ghost use Rattle.past_laws.specs.Along.{EachComesSo, IsNamed};
ghost use Rattle.headline_laws.specs.StopRuns.Stops.{AreExact};

/// Along a trace whose records come so, each stop within a disk call is where the disk is cut by the past, and no disk is used for more calls
/// than pass without that stop, if adoptions wrote these pages.
pub fn exact_cuts_keep_the_promise()
    ensures { (wrote : ℕ → List ℕ) (lines : List ScheduleLine) (trace : Trace) → IsNamed (config_of lines) → EachComesSo (config_of lines) trace → AreExact wrote (config_of lines) lines trace → StopsBy wrote lines (reverse trace) }
{}
