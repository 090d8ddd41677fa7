ghost use Rattle.std.specs.Prelude.{List, reverse};
ghost use Rattle.schedule_lines.specs.Schedule.{AreInOrder};
ghost use Rattle.schedule_lines.specs.declared.line.ScheduleLine.{ScheduleLine};
ghost use Rattle.the_run.specs.Runs.{run};
ghost use Rattle.row_laws.specs.Shown.{trace_of};
ghost use Rattle.promises.specs.Stops.{Stops};

/// A site is stopped within a disk call exactly where the line that armed its disk has it, and with what that leaves; and once more calls
/// were made than pass the next record is that stop.
pub fn stops_come_where_disks_are_cut()
    ensures { (lines : List ScheduleLine) → AreInOrder lines → Stops lines (reverse (trace_of (run lines))) }
{}
