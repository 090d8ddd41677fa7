//! The run is prompt: each record comes as early as it can, and at a line at which it may.
ghost use Rattle.std.specs.Prelude.{List};
ghost use Rattle.schedule_lines.specs.Cluster.{config_of};
ghost use Rattle.schedule_lines.specs.Schedule.{AreInOrder};
ghost use Rattle.schedule_lines.specs.declared.line.ScheduleLine.{ScheduleLine};
ghost use Rattle.lawful_trace.specs.Prompt.{IsPrompt};
ghost use Rattle.the_run.specs.Runs.{run};
ghost use Rattle.row_laws.specs.Shown.{EachRecord, trace_of};
ghost use Rattle.headline_laws.specs.Prompting.Stops.{HeedsItsDisk};

/// After every schedule whose lines are in order, also where its run passes a limit: where a version came on the disk of a site, and that
/// disk has made more calls than pass, the next record is the site's stop.
pub fn disks_are_heeded()
    ensures { (lines : List ScheduleLine) → AreInOrder lines → EachRecord (HeedsItsDisk (config_of lines) lines) (trace_of (run lines)) }
{}

/// After every such schedule all of it holds of the trace: replies that are due come next, and none is missing at the end; each record
/// stands at a line at which it may; void lines, calls and boots stand first or alone; and disks that are to stop their sites do.
pub fn run_is_prompt()
    ensures { (lines : List ScheduleLine) → AreInOrder lines → IsPrompt lines (trace_of (run lines)) }
{}
