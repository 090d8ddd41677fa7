//! What holds after each event, and after each record.
ghost use Rattle.std.specs.Prelude.{List};
ghost use Rattle.locus_ids.specs.declared.config.Config.{Config};
ghost use Rattle.schedule_lines.specs.Cluster.{config_of};
ghost use Rattle.schedule_lines.specs.Schedule.{AreInOrder};
ghost use Rattle.schedule_lines.specs.declared.line.ScheduleLine.{ScheduleLine};
ghost use Rattle.the_run.specs.Runs.{run};
ghost use Rattle.row_laws.specs.Shown.{trace_of};
ghost use Rattle.headline_laws.specs.Promises.Moments.{HoldsAfterEvents, MomentsEndRounds, VersionsHoldThroughout};

/// After each event, so after each line and within a round after each tick and each delivery, each disk holds of each file just the version
/// that its site has by the records, the requests of calls are within their bounds, and one delivery more sends at most one packet that
/// serves a call. A moment of a round after its ticks is the end of one with a smaller budget.
pub fn events_leave_all_so()
    ensures holds { (lines : List ScheduleLine) → AreInOrder lines → HoldsAfterEvents (config_of lines) lines }
    ensures rounds { (c : Config) (lines : List ScheduleLine) → MomentsEndRounds c lines }
{}

/// After each record versions are ordered by ancestry, and written vectors tell that order; each version that was brought to an epoch or
/// published there, and each ancestor of one, is an ancestor of one that the epoch keeps, and each commit is one of what its own site holds,
/// or is that.
pub fn versions_hold_throughout()
    ensures { (lines : List ScheduleLine) → AreInOrder lines → VersionsHoldThroughout (config_of lines) (trace_of (run lines)) }
{}
