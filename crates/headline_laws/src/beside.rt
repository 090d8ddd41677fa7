ghost use Rattle.std.specs.Prelude.{◌≡◌, true, List, reverse};
ghost use Rattle.schedule_lines.specs.Cluster.{config_of};
ghost use Rattle.schedule_lines.specs.Schedule.{AreInOrder};
ghost use Rattle.schedule_lines.specs.declared.line.ScheduleLine.{ScheduleLine};
ghost use Rattle.the_run.specs.Runs.{run};
ghost use Rattle.row_laws.specs.Shown.{trace_of};
ghost use Rattle.promises.specs.Past.{nothing_yet};
ghost use Rattle.promises.specs.Traces.{each};
ghost use Rattle.promises.specs.Beside.{comes_promptly, commits_when_asked, refusals_change_nothing};

/// A call that is refused, for another cause than that its epoch has changed, changes no named file: its closes have made no version, but
/// for that of a file that it made itself, as create, mkdir and mail do, and that no entry names.
pub fn refused_calls_change_nothing()
    ensures { (lines : List ScheduleLine) → AreInOrder lines → each refusals_change_nothing (config_of lines) (nothing_yet (config_of lines)) (reverse (trace_of (run lines))) ≡ true }
{}

/// A version is committed only where a call has asked for the commit or the close of its instance, and hasn't been answered that yet.
pub fn commits_wait_to_be_asked()
    ensures { (lines : List ScheduleLine) → AreInOrder lines → each (commits_when_asked (config_of lines)) (config_of lines) (nothing_yet (config_of lines)) (reverse (trace_of (run lines))) ≡ true }
{}

/// While a reply is owed at once, to a call whose site has left its epoch or that needs no request, only such replies come.
pub fn owed_replies_come_first()
    ensures { (lines : List ScheduleLine) → AreInOrder lines → each (comes_promptly (config_of lines)) (config_of lines) (nothing_yet (config_of lines)) (reverse (trace_of (run lines))) ≡ true }
{}
