//! What holds of versions in every run. A reader cites this room; the rooms below it have the same laws under premises that hold in
//! every run.
ghost use Rattle.std.specs.Prelude.{List};
ghost use Rattle.locus_ids.specs.declared.ids.FileId.{FileId};
ghost use Rattle.locus_ids.specs.declared.config.Config.{Config};
ghost use Rattle.schedule_lines.specs.declared.line.ScheduleLine.{ScheduleLine};
ghost use Rattle.the_run.specs.Runs.{run_in};
ghost use Rattle.site_laws.specs.Vectors.Written.{past_of, VectorsAreWritten, CommitsAreNumbered};
ghost use Rattle.site_laws.specs.Vectors.HistoryCommits.{commits_of, VectorsTell, CopiesAreTrue, CommitsAreHeld};
ghost use Rattle.site_laws.specs.Kept.VersionVersions.{VersionsHold};

/// After every schedule each copy on a disk, of a running site or a stopped one, is of a version told in the trace, or the
/// format's, and has its written vector: counter by counter the greatest of its parents' written vectors, with that of the
/// committing site raised by one.
pub fn vectors_are_written()
    ensures { (c : Config) (lines : List ScheduleLine) → VectorsAreWritten (run_in c lines) }
{}

/// After every schedule each commit's stamp names its site, its parents were told before it, and its number is one more than
/// the greatest that their written vectors count of that site.
pub fn commits_are_numbered()
    ensures { (c : Config) (lines : List ScheduleLine) → CommitsAreNumbered (past_of (run_in c lines).trace) }
{}

/// After every schedule a commit's number counts the commits of its file at its site, the commits of one site form a chain, a
/// written vector counts the ancestors by site, and of two versions one is an ancestor of the other exactly where its vector
/// is at most the other's.
pub fn vectors_tell_ancestors()
    ensures { (c : Config) (lines : List ScheduleLine) → (file : FileId) → VectorsTell file (commits_of file (past_of (run_in c lines).trace)) }
{}

/// After every schedule each copy on a disk is the format's or of a commit of its file in the trace, and has the vector
/// that the history gives that version.
pub fn copies_are_true()
    ensures { (c : Config) (lines : List ScheduleLine) → CopiesAreTrue (run_in c lines) }
{}

/// After every schedule, a site that has committed a file holds a copy of it that has all those commits among its
/// ancestors.
pub fn commits_are_held()
    ensures { (c : Config) (lines : List ScheduleLine) → CommitsAreHeld (run_in c lines) }
{}

/// All of these together, after every schedule, and that no file has two commits with one stamp: what the program promises of
/// the run that it writes.
pub fn versions_hold()
    ensures { (c : Config) (lines : List ScheduleLine) → VersionsHold (run_in c lines) }
{}
