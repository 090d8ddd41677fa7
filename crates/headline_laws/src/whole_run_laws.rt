//! What holds of every run as a whole: of its disks by its trace, and of its rounds.
ghost use Rattle.std.specs.Prelude.{List};
ghost use Rattle.locus_ids.specs.declared.config.Config.{Config};
ghost use Rattle.schedule_lines.specs.Cluster.{config_of};
ghost use Rattle.schedule_lines.specs.Schedule.{AreInOrder};
ghost use Rattle.schedule_lines.specs.declared.line.ScheduleLine.{ScheduleLine};
ghost use Rattle.the_run.specs.Runs.{run, run_in};
ghost use Rattle.row_laws.specs.Shown.{trace_of};
ghost use Rattle.headline_laws.specs.WholeRuns.Disks.{DisksHold};
ghost use Rattle.promises.specs.Progress.{LargeRoundsEnd};

/// Each disk, of a running site or a stopped one, holds of each file just the version that its site has by the trace, whole: kind,
/// sites, stamp, written vector, bytes; and no copy where its site has none.
pub fn disks_hold_what_was_told()
    ensures { (lines : List ScheduleLine) → AreInOrder lines → DisksHold (config_of lines) (run lines) }
{}

/// After every schedule, one that passes a limit too, no round whose budget is 262,144 or more has ended by it: no more packets may be
/// sent, and a round delivers each of them once.
pub fn large_rounds_end()
    ensures { (c : Config) (lines : List ScheduleLine) → LargeRoundsEnd lines (trace_of (run_in c lines)) }
{}
