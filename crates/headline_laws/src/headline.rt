ghost use Rattle.std.specs.Prelude.{◌≡◌, true, List, [], reverse};
ghost use Rattle.schedule_lines.specs.Cluster.{config_of};
ghost use Rattle.schedule_lines.specs.Schedule.{AreInOrder};
ghost use Rattle.schedule_lines.specs.declared.line.ScheduleLine.{ScheduleLine};
ghost use Rattle.the_run.specs.Runs.{run};
ghost use Rattle.row_laws.specs.Shown.{trace_of};
ghost use Rattle.promises.specs.Past.{nothing_yet};
ghost use Rattle.promises.specs.Headline.{Headline, keeps_acknowledged};

/// New once acknowledged: a version that a commit or a close is answered with was committed, and from its reply on the site that
/// committed it has it or one above it.
pub fn acknowledged_versions_are_new()
    ensures { (lines : List ScheduleLine) → AreInOrder lines → keeps_acknowledged (config_of lines) (nothing_yet (config_of lines)) [] (reverse (trace_of (run lines))) ≡ true }
{}

/// The whole headline, of every run: of its records in the order in which they are printed.
pub fn every_run_keeps_the_headline()
    ensures { (lines : List ScheduleLine) → AreInOrder lines → Headline lines (reverse (trace_of (run lines))) }
{}
