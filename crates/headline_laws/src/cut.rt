//! The disk calls of a run, as the lawful trace counts them: a stop within a disk call comes at a call that the script of its disk still
//! lets pass.
ghost use Rattle.std.specs.Prelude.{◌≤◌, List, length};
ghost use Rattle.locus_ids.specs.declared.config.Config.{Config};
ghost use Rattle.schedule_lines.specs.Cluster.{config_of};
ghost use Rattle.schedule_lines.specs.Schedule.{AreInOrder};
ghost use Rattle.schedule_lines.specs.declared.line.ScheduleLine.{ScheduleLine};
ghost use Rattle.the_run.specs.Runs.{run, run_in};
ghost use Rattle.rest_laws.specs.of_tree_laws.Orders.Joining.{PacksAreOfSites};
ghost use Rattle.row_laws.specs.Shown.{EachRecord, trace_of};
ghost use Rattle.row_laws.specs.Voids.{LinesFit};
ghost use Rattle.rest_laws.specs.MendStepCounting.{IsCountedRow};

/// In the run of every schedule whose lines are in range for the cluster a site is stopped within a disk call only where the call can be
/// the one after the last that its disk lets pass: no more calls were made than pass, as the lawful trace counts them, by the pages and
/// tables of versions, the gates of files and the boots. So it is of the lines that the reader of schedules accepts, in the cluster that
/// their header makes.
pub fn cut_calls_are_counted()
    ensures fit { (c : Config) (lines : List ScheduleLine) → LinesFit c lines → PacksAreOfSites c → length c.packs ≤ 4 → EachRecord (IsCountedRow c lines) (trace_of (run_in c lines)) }
    ensures read { (lines : List ScheduleLine) → AreInOrder lines → EachRecord (IsCountedRow (config_of lines) lines) (trace_of (run lines)) }
{}
