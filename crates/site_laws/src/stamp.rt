//! The law of every run that no file has two commits with one stamp: a commit is made under the one instance of its file that may write
//! in the epoch, on a vector that counts all earlier commits of its site.
ghost use Rattle.std.specs.Prelude.{List};
ghost use Rattle.locus_ids.specs.declared.config.Config.{Config};
ghost use Rattle.schedule_lines.specs.declared.line.ScheduleLine.{ScheduleLine};
ghost use Rattle.the_run.specs.Runs.{run_in};
ghost use Rattle.site_laws.specs.Vectors.Written.{past_of};
ghost use Rattle.site_laws.specs.Vectors.HistoryCommits.{StampsAreOnce};

/// After every schedule no file has two commits with one stamp: with the laws of vectors, a stamp names a version of its file
/// for good, and vectors that are compared counter by counter (Parker and others, 1983) tell which of two versions is newer.
pub fn stamps_are_once()
    ensures { (c : Config) (lines : List ScheduleLine) → StampsAreOnce (past_of (run_in c lines).trace) }
{}
