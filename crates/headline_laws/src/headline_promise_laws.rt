ghost use Rattle.std.specs.Prelude.{◌≡◌, true, List, reverse};
ghost use Rattle.schedule_lines.specs.Cluster.{config_of};
ghost use Rattle.schedule_lines.specs.Schedule.{AreInOrder};
ghost use Rattle.schedule_lines.specs.declared.line.ScheduleLine.{ScheduleLine};
ghost use Rattle.the_run.specs.Runs.{run};
ghost use Rattle.row_laws.specs.Shown.{trace_of};
ghost use Rattle.promises.specs.Past.{nothing_yet};
ghost use Rattle.promises.specs.Traces.{each, is_one_tree};
ghost use Rattle.promises.specs.Headline.{always, flags_rightly, has_whole_files, loses_nothing, serves_whole_files};

/// Replies in an agreed partition are those of one tree of its members' commits: each record of the run may follow those before it.
pub fn runs_are_one_tree()
    ensures { (lines : List ScheduleLine) → AreInOrder lines → is_one_tree (config_of lines) (reverse (trace_of (run lines))) ≡ true }
{}

/// Each file comes back wholly old or wholly new: after each record what each site has of each file is one commit, and so is what is
/// served or opened.
pub fn files_come_back_whole()
    ensures whole { (lines : List ScheduleLine) → AreInOrder lines → always has_whole_files (config_of lines) (reverse (trace_of (run lines))) ≡ true }
    ensures served { (lines : List ScheduleLine) → AreInOrder lines → each serves_whole_files (config_of lines) (nothing_yet (config_of lines)) (reverse (trace_of (run lines))) ≡ true }
{}

/// Every commit is an ancestor of a kept version: after each record, in each epoch to which it or a descendant of it was brought, and
/// its own site has it or one above it.
pub fn commits_are_kept()
    ensures { (lines : List ScheduleLine) → AreInOrder lines → always loses_nothing (config_of lines) (reverse (trace_of (run lines))) ≡ true }
{}

/// A file is flagged exactly when two versions kept there are concurrent.
pub fn files_are_flagged_rightly()
    ensures { (lines : List ScheduleLine) → AreInOrder lines → each flags_rightly (config_of lines) (nothing_yet (config_of lines)) (reverse (trace_of (run lines))) ≡ true }
{}
