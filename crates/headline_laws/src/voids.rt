//! What void lines do.
ghost use Rattle.std.specs.Prelude.{List};
ghost use Rattle.schedule_lines.specs.Cluster.{config_of};
ghost use Rattle.schedule_lines.specs.Schedule.{AreInOrder};
ghost use Rattle.schedule_lines.specs.declared.line.ScheduleLine.{ScheduleLine};
ghost use Rattle.headline_laws.specs.Promises.Voiding.{VoidLinesChangeNothing};

/// A line that tells that it is void tells that alone, and leaves sites with their disks, armed disks, circuits and packets as it found them.
pub fn void_lines_change_nothing()
    ensures { (lines : List ScheduleLine) → AreInOrder lines → VoidLinesChangeNothing (config_of lines) lines }
{}
