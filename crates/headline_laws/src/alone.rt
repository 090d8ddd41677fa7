//! Which records stand first at their line, and which alone.
ghost use Rattle.std.specs.Prelude.{List};
ghost use Rattle.locus_ids.specs.declared.config.Config.{Config};
ghost use Rattle.schedule_lines.specs.declared.line.ScheduleLine.{ScheduleLine};
ghost use Rattle.the_run.specs.Runs.{run_in};
ghost use Rattle.row_laws.specs.Shown.{EachRecord, trace_of};
ghost use Rattle.headline_laws.specs.Prompting.Alone.{StandsAlone};

/// After every schedule, in whatever cluster, and also where its run passes a limit: a record that its line is void is the only one of
/// that line, and a call that a line asks, and a boot, is the first one.
pub fn void_lines_tell_nothing_else()
    ensures { (c : Config) (lines : List ScheduleLine) → EachRecord StandsAlone (trace_of (run_in c lines)) }
{}
