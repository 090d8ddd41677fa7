//! When versions are committed.
ghost use Rattle.std.specs.Prelude.{List};
ghost use Rattle.schedule_lines.specs.Cluster.{config_of};
ghost use Rattle.schedule_lines.specs.Schedule.{AreInOrder};
ghost use Rattle.schedule_lines.specs.declared.line.ScheduleLine.{ScheduleLine};
ghost use Rattle.the_run.specs.Runs.{run};
ghost use Rattle.row_laws.specs.Shown.{trace_of};
ghost use Rattle.headline_laws.specs.Promises.Committing.{AbortsDropUncommitted, CommitsAreAsked};
ghost use Rattle.headline_laws.specs.Promises.Granting.{CommitsAreNotRefused};

/// A commit comes only in a step of a call that commits: while a call of the epoch asks next that the one open instance of the file that
/// may commit it be committed or closed.
pub fn commits_come_when_asked()
    ensures { (lines : List ScheduleLine) → AreInOrder lines → CommitsAreAsked (config_of lines) (trace_of (run lines)) }
{}

/// What an abort drops was never committed: the last version of the file that the storage site has committed or adopted in the epoch is
/// the last one of the instance, from before all that the abort drops.
pub fn aborts_drop_what_is_uncommitted()
    ensures { (lines : List ScheduleLine) → AreInOrder lines → AbortsDropUncommitted (config_of lines) (trace_of (run lines)) }
{}

/// No request to commit or to close an instance is refused, whichever call asks it: a commit is answered by the version, a close ends.
pub fn commits_are_not_refused()
    ensures { (lines : List ScheduleLine) → AreInOrder lines → CommitsAreNotRefused (config_of lines) (trace_of (run lines)) }
{}
