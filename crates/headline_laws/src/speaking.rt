//! What the records of every run speak of.
ghost use Rattle.std.specs.Prelude.{List};
ghost use Rattle.schedule_lines.specs.Cluster.{config_of};
ghost use Rattle.schedule_lines.specs.Schedule.{AreInOrder};
ghost use Rattle.schedule_lines.specs.declared.line.ScheduleLine.{ScheduleLine};
ghost use Rattle.the_run.specs.Runs.{run};
ghost use Rattle.row_laws.specs.Shown.{EachRecord, trace_of};
ghost use Rattle.headline_laws.specs.Prompting.Speaks.{SpeaksOfWhatIs};

/// After every schedule whose lines are in order, also where its run passes a limit, each record speaks of sites of the cluster alone;
/// each epoch and each call that it names is of such a site, in a boot that it has had by then, and who is listed as a member of an
/// epoch that is joined has had the boot of the list; an accepted call is a mend of process 0, or has a process and words that a line
/// may have. (Which packets a pending line lists is the run's.)
pub fn records_speak_of_what_is()
    ensures { (lines : List ScheduleLine) → AreInOrder lines → EachRecord (SpeaksOfWhatIs (config_of lines)) (trace_of (run lines)) }
{}
