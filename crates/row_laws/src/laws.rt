ghost use Rattle.std.specs.Prelude.{◌≡◌, true, List, length, None};
ghost use Rattle.locus_ids.specs.declared.config.Config.{Config};
ghost use Rattle.schedule_lines.specs.declared.line.ScheduleLine.{ScheduleLine};
ghost use Rattle.schedule_lines.specs.Cluster.{config_of};
ghost use Rattle.schedule_lines.specs.Schedule.{AreInOrder};
ghost use Rattle.site_laws.specs.of_the_run.Runs.{run, run_in};
ghost use Rattle.lawful_trace.specs.Disks.{keeps_calls};
ghost use Rattle.lawful_trace.specs.Lawful.{IsLawful};
ghost use Rattle.row_laws.specs.Shown.{EachRecord, trace_of};
ghost use Rattle.row_laws.specs.Rows.{IsPlaced, IsAskedFor, IsSiteRow, IsMemberRow, IsShortRow, IsArmedFor};
ghost use Rattle.row_laws.specs.Rest.{MeetsTheRest};
ghost use Rattle.row_laws.specs.Voids.{LinesFit, CutsNoSelf, IsVoidRow};
ghost use Rattle.row_laws.specs.Tales.{ToldTo};

/// After every schedule the lines of the records ascend, and each is one of the lines that were read.
pub fn records_are_placed()
    ensures { (c : Config) (lines : List ScheduleLine) → EachRecord (IsPlaced lines) (trace_of (run_in c lines)) }
{}

/// After every schedule the lines have asked for each record: a boot, a stop and an accepted call stand at their lines, a
/// stop within a disk call is of a site that runs or boots, listed packets and the end of a round stand at such lines, a
/// site leaves its epoch by a line of its own or after another site has begun to part or to merge, and an epoch that it
/// joins was begun by such a line, in the boot that its id names.
pub fn records_are_asked_for()
    ensures { (c : Config) (lines : List ScheduleLine) → EachRecord (IsAskedFor lines) (trace_of (run_in c lines)) }
{}

/// After every schedule each boot, stop, leave and join came as it may: a stopped site boots with a number above all that it
/// had; a running one stops, leaves the epoch that it is in, and joins, in no epoch, one that it never joined, above all
/// that it joined in this boot, with the list of all others that join it.
pub fn sites_go_on()
    ensures { (c : Config) (lines : List ScheduleLine) → EachRecord (IsSiteRow c) (trace_of (run_in c lines)) }
{}

/// After every schedule in which no line cuts a site off from itself, the list that a site joins has it, with the boot number
/// in which it joins.
pub fn lists_have_who_joins()
    ensures { (c : Config) (lines : List ScheduleLine) → CutsNoSelf lines → EachRecord IsMemberRow (trace_of (run_in c lines)) }
{}

/// After every schedule the list that a site joins has no site beyond the sixteenth.
pub fn lists_are_of_sites()
    ensures { (c : Config) (lines : List ScheduleLine) → EachRecord IsShortRow (trace_of (run_in c lines)) }
{}

/// After every schedule, where a site was stopped within a disk call, a line had armed its disk, of this kind, and neither
/// was another armed since, nor had the site stopped.
pub fn cut_sites_were_armed()
    ensures { (c : Config) (lines : List ScheduleLine) → EachRecord (IsArmedFor c lines) (trace_of (run_in c lines)) }
{}

/// After every schedule an armed disk that stops nothing had room for the versions since its line: four calls each.
pub fn armed_disks_keep_calls()
    ensures { (c : Config) (lines : List ScheduleLine) → keeps_calls c lines (trace_of (run_in c lines)) ≡ true }
{}

/// The run of a schedule whose records of calls and of the tree are lawful is lawful, where its lines are in order and it
/// passed no limit, each cut is counted, and calls are void or told as they must:
/// its other records and lines are lawful in every run.
pub fn the_rest_makes_runs_lawful()
    ensures { (lines : List ScheduleLine) → (run lines).over ≡ None → MeetsTheRest lines (trace_of (run lines)) → IsLawful lines (trace_of (run lines)) }
{}

/// After every schedule whose lines are in range for the cluster, a line that tells that it is void is so by the lines and
/// the records before it, where it isn't a call.
pub fn void_lines_are_void()
    ensures { (c : Config) (lines : List ScheduleLine) → LinesFit c lines → EachRecord (IsVoidRow lines) (trace_of (run_in c lines)) }
{}

/// After every schedule whose lines are in range for the cluster, and whose run passed no limit, each line that isn't a call
/// has told what it must: that it is void, once; its stop, its boot or the stop in it, or its leave, once.
pub fn lines_are_told()
    ensures { (c : Config) (lines : List ScheduleLine) → LinesFit c lines → (run_in c lines).over ≡ None → ToldTo lines (length lines) (trace_of (run_in c lines)) }
{}

/// The lines that the reader of schedules accepts are in range for the cluster that their header makes.
pub fn schedules_fit_their_cluster()
    ensures { (lines : List ScheduleLine) → AreInOrder lines → LinesFit (config_of lines) lines }
{}
