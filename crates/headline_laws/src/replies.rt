//! Replies: each is the one that the script of its call gives, and stands directly after what it answers.
ghost use Rattle.std.specs.Prelude.{List};
ghost use Rattle.schedule_lines.specs.Cluster.{config_of};
ghost use Rattle.schedule_lines.specs.Schedule.{AreInOrder};
ghost use Rattle.schedule_lines.specs.declared.line.ScheduleLine.{ScheduleLine};
ghost use Rattle.the_run.specs.Runs.{run};
ghost use Rattle.row_laws.specs.Shown.{EachRecord, trace_of};
ghost use Rattle.headline_laws.specs.Prompting.Due.{RepliesComeNext};
ghost use Rattle.headline_laws.specs.Prompting.Directly.{IsDirectRow};
ghost use Rattle.headline_laws.specs.Prompting.Given.{IsGivenRow};

/// After every schedule whose lines are in order, also where its run passes a limit, each reply is the very one that the script of its
/// call gives, by its words, its descriptors and what its requests were answered, or that its epoch was left; not another of the same
/// text.
pub fn replies_are_given()
    ensures { (lines : List ScheduleLine) → AreInOrder lines → EachRecord (IsGivenRow (config_of lines)) (trace_of (run lines)) }
{}

/// After every such schedule a reply that its epoch was left stands directly after the record of its site's leave, or after such a
/// reply of a process of the site that isn't above it; each other reply stands directly after its call is accepted, or comes after a
/// request of its call was answered.
pub fn replies_stand_directly()
    ensures { (lines : List ScheduleLine) → AreInOrder lines → EachRecord (IsDirectRow (config_of lines)) (trace_of (run lines)) }
{}

/// After every such schedule: directly after a leave all waiting calls of the site are answered that their epoch was left, in order of
/// process, before any other record; directly after the acceptance of a call that needs no request comes its reply; and at the end of
/// the trace no such reply is missing.
pub fn due_replies_come_next()
    ensures { (lines : List ScheduleLine) → AreInOrder lines → RepliesComeNext (config_of lines) (trace_of (run lines)) }
{}
