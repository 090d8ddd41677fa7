//! At which lines records stand.
ghost use Rattle.std.specs.Prelude.{List};
ghost use Rattle.schedule_lines.specs.Schedule.{AreInOrder};
ghost use Rattle.schedule_lines.specs.declared.line.ScheduleLine.{ScheduleLine};
ghost use Rattle.the_run.specs.Runs.{run};
ghost use Rattle.row_laws.specs.Shown.{EachRecord, trace_of};
ghost use Rattle.headline_laws.specs.Prompting.Places.{StandsWhereItMay};

/// After every schedule whose lines are in order, also where its run passes a limit, each record stands at a line at which it may: steps
/// of calls, commits and starts where packets are delivered, adoptions and mends there or where a site ticks, joins where a site has an
/// event by which a round may be decided.
pub fn records_stand_where_they_may()
    ensures { (lines : List ScheduleLine) → AreInOrder lines → EachRecord (StandsWhereItMay lines) (trace_of (run lines)) }
{}
