//! Every run stops a site within a disk call exactly where the line that armed its disk has it.
ghost use Rattle.std.specs.Prelude.{List};
ghost use Rattle.schedule_lines.specs.Cluster.{config_of};
ghost use Rattle.schedule_lines.specs.Schedule.{AreInOrder};
ghost use Rattle.schedule_lines.specs.declared.line.ScheduleLine.{ScheduleLine};
ghost use Rattle.the_run.specs.Runs.{run};
ghost use Rattle.row_laws.specs.Shown.{trace_of};
ghost use Rattle.headline_laws.specs.StopRuns.Stops.{CutsAreExact};

/// In every run a site is stopped within a disk call at exactly the call after the last that its armed disk lets pass, and with what that
/// leaves, for the pages that its adoptions wrote: in a version that stays on the disk, of which the last record tells; in one that doesn't
/// stay, whose record could come next; or in a boot. And once more calls were made than pass the next record is that stop.
pub fn cuts_are_exact()
    ensures { (lines : List ScheduleLine) → AreInOrder lines → CutsAreExact (config_of lines) lines (trace_of (run lines)) }
{}
