ghost use Rattle.std.specs.Prelude.{List};
ghost use Rattle.locus_ids.specs.declared.config.Config.{Config};
ghost use Rattle.schedule_lines.specs.declared.line.ScheduleLine.{ScheduleLine};
ghost use Rattle.the_run.specs.Runs.{run_in};
ghost use Rattle.rest_laws.specs.of_row_laws.Shown.{trace_of};
ghost use Rattle.text_laws.specs.NewTexts.Keeping.{KeepsFew};

/// In the trace of every schedule, before any of its records, an epoch keeps no more than 17 versions of a file: the format's, and one of
/// each site, since of two versions of one site the earlier is an ancestor of the later.
pub fn epochs_keep_few()
    ensures { (c : Config) (lines : List ScheduleLine) → KeepsFew 17 c (trace_of (run_in c lines)) }
{}
