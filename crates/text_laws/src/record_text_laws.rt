ghost use Rattle.std.specs.Prelude.{ℕ, ◌≡◌, ◌≤◌, List, Some, length};
ghost use Rattle.locus_ids.specs.declared.config.Config.{Config};
ghost use Rattle.schedule_lines.specs.declared.line.ScheduleLine.{ScheduleLine};
ghost use Rattle.row_laws.specs.Shown.{EachRecord, trace_of};
ghost use Rattle.row_laws.specs.Voids.{LinesFit};
ghost use Rattle.the_run.specs.Runs.{run_in};
ghost use Rattle.the_run.specs.Worlds.{Place, place_at};
ghost use Rattle.text_laws.specs.Records.Texts.{BootsAreLow, IsCountedCall, IsJoinFit, IsLined};

/// After every schedule there are no more than 134,217,728 records: each has some text, of which there is room for so many bytes.
pub fn records_are_few()
    ensures { (c : Config) (lines : List ScheduleLine) → length (trace_of (run_in c lines)) ≤ 134217728 }
{}

/// After every schedule of no more than 4,294,967,295 lines each record stands at a line that has a number.
pub fn records_have_lines()
    ensures { (c : Config) (lines : List ScheduleLine) → length lines ≤ 4294967295 → EachRecord IsLined (trace_of (run_in c lines)) }
{}

/// After every schedule whose lines are in range for the cluster, each accepted call has a number that the name of a call can have: there
/// are no more calls than records.
pub fn calls_have_numbers()
    ensures { (c : Config) (lines : List ScheduleLine) → LinesFit c lines → EachRecord IsCountedCall (trace_of (run_in c lines)) }
{}

/// After every schedule the boot numbers that a site of the cluster has had by any record, or before it, are not above 134,217,729.
pub fn records_say_low_boots()
    ensures { (c : Config) (lines : List ScheduleLine) (site : ℕ) (p : Place) → place_at (run_in c lines) site ≡ Some p → EachRecord (BootsAreLow site) (trace_of (run_in c lines)) }
{}

/// After every schedule each epoch that a site has joined has a number of four bytes, is of one of the sixteen sites and of a boot number that
/// a run comes to, and its list has a boot number, or 0, for each of these sites.
pub fn joins_have_texts()
    ensures { (c : Config) (lines : List ScheduleLine) → EachRecord IsJoinFit (trace_of (run_in c lines)) }
{}
