ghost use Rattle.std.specs.Prelude.{◌≡◌, List, None};
ghost use Rattle.schedule_lines.specs.Cluster.{config_of};
ghost use Rattle.schedule_lines.specs.Schedule.{AreInOrder};
ghost use Rattle.schedule_lines.specs.declared.line.ScheduleLine.{ScheduleLine};
ghost use Rattle.the_run.specs.Runs.{run};
ghost use Rattle.lawful_trace.specs.Lawful.{IsLawful};
ghost use Rattle.row_laws.specs.Shown.{trace_of};
ghost use Rattle.promises.specs.Convergence.{Convergence};
ghost use Rattle.promises.specs.Progress.{Progress};
ghost use Rattle.headline_laws.specs.Commits.{CommitsHold};
ghost use Rattle.headline_laws.specs.Replies.{RepliesHold};
ghost use Rattle.headline_laws.specs.Rows.{RowsHold};
ghost use Rattle.headline_laws.specs.TheRun.{TheRun};

/// The run of every schedule that the reader accepts, and that passes no limit, is lawful: each of its records, in turn, comes as the one
/// tree of its epoch's members has it, and each line tells what it must.
pub fn runs_are_lawful()
    ensures { (lines : List ScheduleLine) → AreInOrder lines → (run lines).over ≡ None → IsLawful lines (trace_of (run lines)) }
{}

/// Each promise holds of the run of every schedule whose lines are in order; those of progress where it passes no limit.
pub fn every_run_keeps_its_promises()
    ensures the_run { (lines : List ScheduleLine) → AreInOrder lines → TheRun lines }
    ensures rows { (lines : List ScheduleLine) → AreInOrder lines → RowsHold lines (trace_of (run lines)) }
    ensures replies { (lines : List ScheduleLine) → AreInOrder lines → RepliesHold lines (trace_of (run lines)) }
    ensures commits { (lines : List ScheduleLine) → AreInOrder lines → CommitsHold lines (trace_of (run lines)) }
    ensures progress { (lines : List ScheduleLine) → AreInOrder lines → (run lines).over ≡ None → Progress lines (trace_of (run lines)) }
    ensures convergence { (lines : List ScheduleLine) → AreInOrder lines → (run lines).over ≡ None → Convergence lines (trace_of (run lines)) }
{}
