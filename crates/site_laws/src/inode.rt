//! A law of every run about inode numbers: those of committed and adopted files have 16 bits.
ghost use Rattle.std.specs.Prelude.{List};
ghost use Rattle.locus_ids.specs.declared.config.Config.{Config};
ghost use Rattle.schedule_lines.specs.declared.line.ScheduleLine.{ScheduleLine};
ghost use Rattle.the_run.specs.Runs.{run_in};
ghost use Rattle.site_laws.specs.Vectors.Written.{past_of};
ghost use Rattle.site_laws.specs.Vectors.HistoryCommits.{NumbersFit};

/// After every schedule, each inode number that a commit or an adoption tells has 16 bits: a file is known where a disk holds it,
/// and each that isn't a root was made with a number of a site's range.
pub fn numbers_fit()
    ensures { (c : Config) (lines : List ScheduleLine) → NumbersFit (past_of (run_in c lines).trace) }
{}
