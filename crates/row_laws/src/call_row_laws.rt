ghost use Rattle.std.specs.Prelude.{◌≡◌, List, length, None};
ghost use Rattle.locus_ids.specs.declared.config.Config.{Config};
ghost use Rattle.schedule_lines.specs.declared.line.ScheduleLine.{ScheduleLine};
ghost use Rattle.the_run.specs.Runs.{run, run_in};
ghost use Rattle.lawful_trace.specs.Lawful.{IsLawful};
ghost use Rattle.row_laws.specs.Shown.{EachRecord, trace_of};
ghost use Rattle.row_laws.specs.Voids.{LinesFit};
ghost use Rattle.row_laws.specs.CallRows.Accepting.{IsAcceptRow};
ghost use Rattle.row_laws.specs.CallRows.Lines.{IsVoidCall, CallsTold};
ghost use Rattle.row_laws.specs.CallRows.Tree.{MeetsTheTree};

/// After every schedule whose lines are in range for the cluster, each call was accepted where its site ran and its process
/// waited for nothing, as the next call of that boot of the site; a mend was the next call, too.
pub fn calls_are_accepted()
    ensures { (c : Config) (lines : List ScheduleLine) → LinesFit c lines → EachRecord (IsAcceptRow c) (trace_of (run_in c lines)) }
{}

/// After every schedule whose lines are in range for the cluster, a call line that tells that it is void is so by the records
/// before it: its site is stopped, or its process waits.
pub fn void_calls_are_void()
    ensures { (c : Config) (lines : List ScheduleLine) → LinesFit c lines → EachRecord (IsVoidCall lines) (trace_of (run_in c lines)) }
{}

/// After every schedule whose lines are in range for the cluster, and whose run passed no limit, each call line has told
/// what it must, once: that it is void, or that its call is accepted.
pub fn calls_are_told()
    ensures { (c : Config) (lines : List ScheduleLine) → LinesFit c lines → (run_in c lines).over ≡ None → CallsTold lines (length lines) (trace_of (run_in c lines)) }
{}

/// The run of a schedule whose records of the tree are lawful is lawful, where its lines are in order and it passed no limit,
/// and each cut is counted: its other records and all its lines are lawful in every run.
pub fn the_tree_makes_runs_lawful()
    ensures { (lines : List ScheduleLine) → (run lines).over ≡ None → MeetsTheTree lines (trace_of (run lines)) → IsLawful lines (trace_of (run lines)) }
{}
