//! How far the counters of versions come: a trace has room for so many bytes, so it tells of fewer commits, and no number of a version
//! is greater than their count.
ghost use Rattle.std.specs.Prelude.{◌≤◌, ℕ, List};
ghost use Rattle.locus_ids.specs.declared.config.Config.{Config};
ghost use Rattle.schedule_lines.specs.declared.line.ScheduleLine.{ScheduleLine};
ghost use Rattle.the_run.specs.Runs.{run_in};
ghost use Rattle.site_laws.specs.Vectors.Written.{past_of};
ghost use Rattle.site_laws.specs.Packs.CounterNumbers.{commits_in, NumbersAreLow};

/// After every schedule the trace tells of at most 134,217,728 commits: so many bytes of text it may have, and each record has some.
pub fn commits_are_few()
    ensures { (c : Config) (lines : List ScheduleLine) → commits_in (past_of (run_in c lines).trace) ≤ 134217728 }
{}

/// After every schedule each commit's number is at most 134,217,728, for it is at most the count of the commits so far. So no counter of
/// versions, which has 32 bits, comes to its end in any run.
pub fn numbers_stay_low()
    ensures { (c : Config) (lines : List ScheduleLine) → NumbersAreLow (past_of (run_in c lines).trace) }
{}
