//! What sites hold of their commits.
ghost use Rattle.std.specs.Prelude.{List};
ghost use Rattle.schedule_lines.specs.Cluster.{config_of};
ghost use Rattle.schedule_lines.specs.Schedule.{AreInOrder};
ghost use Rattle.schedule_lines.specs.declared.line.ScheduleLine.{ScheduleLine};
ghost use Rattle.the_run.specs.Runs.{run};
ghost use Rattle.row_laws.specs.Shown.{trace_of};
ghost use Rattle.headline_laws.specs.Promises.Acknowledged.{NewOnceAcknowledged, OnlyChangedRefuses};
ghost use Rattle.headline_laws.specs.Promises.Holding.{CommitsStayHeld};

/// From its record on, after each record of the run, each commit is what the site that made it holds, or an ancestor of that.
pub fn commits_stay_held()
    ensures { (lines : List ScheduleLine) → AreInOrder lines → CommitsStayHeld (config_of lines) (trace_of (run lines)) }
{}

/// New once acknowledged: a stamp in the reply to a commit or a close names a commit record of its file before the reply, and from then on
/// the site that made it holds it, or a version above it. A root directory of which nothing was committed has the version of its format.
pub fn what_is_acknowledged_is_new()
    ensures { (lines : List ScheduleLine) → AreInOrder lines → NewOnceAcknowledged (config_of lines) (trace_of (run lines)) }
{}

/// A commit or a close of an open instance is refused for no cause but that its site has left the epoch: no counter of versions comes to its
/// end, and what is closed owes nothing.
pub fn only_a_changed_epoch_refuses()
    ensures { (lines : List ScheduleLine) → AreInOrder lines → OnlyChangedRefuses (config_of lines) (trace_of (run lines)) }
{}
