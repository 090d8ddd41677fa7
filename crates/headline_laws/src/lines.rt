ghost use Rattle.std.specs.Prelude.{ℕ, ◌≡◌, List, [], reverse, None};
ghost use Rattle.schedule_lines.specs.Cluster.{config_of};
ghost use Rattle.schedule_lines.specs.Schedule.{AreInOrder};
ghost use Rattle.schedule_lines.specs.declared.line.ScheduleLine.{ScheduleLine};
ghost use Rattle.the_run.specs.Runs.{run};
ghost use Rattle.row_laws.specs.Shown.{trace_of};
ghost use Rattle.promises.specs.Lines.{EachAsked, IsAskedFor};

/// The lines of the schedule ask for the records, for the pages that adoptions wrote: each stands where its line asks for it. Where the run
/// passes no limit, each line tells what it must, once, and a void one nothing else; and a disk that was used for more calls than pass stops
/// its site at once. (A run that passes a limit ends within a line, which hasn't told all that it should.)
pub fn lines_ask_for_runs()
    ensures each { (lines : List ScheduleLine) → AreInOrder lines → (wrote : ℕ → List ℕ) × EachAsked wrote (config_of lines) lines [] (reverse (trace_of (run lines))) }
    ensures whole { (lines : List ScheduleLine) → AreInOrder lines → (run lines).over ≡ None → IsAskedFor (config_of lines) lines (reverse (trace_of (run lines))) }
{}
