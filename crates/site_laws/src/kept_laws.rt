//! Laws of every run about the versions that are kept in an epoch.
ghost use Rattle.std.specs.Prelude.{List};
ghost use Rattle.locus_ids.specs.declared.config.Config.{Config};
ghost use Rattle.schedule_lines.specs.declared.line.ScheduleLine.{ScheduleLine};
ghost use Rattle.the_run.specs.Runs.{run_in};
ghost use Rattle.site_laws.specs.Vectors.Written.{past_of};
ghost use Rattle.site_laws.specs.Kept.Known.{NamesAreVersions};
ghost use Rattle.site_laws.specs.Kept.Roots.{RootsFollow};
ghost use Rattle.site_laws.specs.Kept.Vectors.{VectorsKeepTheSame};
ghost use Rattle.site_laws.specs.Kept.Kept.{KeptVersionsHold};
ghost use Rattle.site_laws.specs.Kept.Keeping.{VersionsAreOrdered, CommitsAreKept};

/// After every schedule the versions of each file are ordered by ancestry: an ancestor of an ancestor is an ancestor, and no two
/// versions are ancestors of each other.
pub fn versions_are_ordered()
    ensures { (c : Config) (lines : List ScheduleLine) → VersionsAreOrdered c (run_in c lines) }
{}

/// After every schedule each commit is an ancestor of a kept version in each epoch in which a member brought or published it, or a
/// version that has it among its ancestors: whatever is lost, late or stopped, what a partition knows is under what it keeps.
pub fn commits_are_kept()
    ensures { (c : Config) (lines : List ScheduleLine) → CommitsAreKept c (run_in c lines) }
{}

/// After every schedule each version that a record adopts at a site or publishes in an epoch was told before it, or is the format's.
pub fn names_are_versions()
    ensures { (c : Config) (lines : List ScheduleLine) → NamesAreVersions (past_of (run_in c lines).trace) }
{}

/// After every schedule each commit of a root directory follows other versions, so that the format's is an ancestor of all.
pub fn roots_follow()
    ensures { (c : Config) (lines : List ScheduleLine) → RootsFollow (past_of (run_in c lines).trace) }
{}

/// After every schedule, whatever versions of a file members have brought to an epoch or published in it, those that are kept there
/// by ancestry are those whose written vector is below that of no other.
pub fn vectors_keep_the_same()
    ensures { (c : Config) (lines : List ScheduleLine) → VectorsKeepTheSame c (run_in c lines) }
{}

/// All of these together, after every schedule, with what holds of versions and copies: what the program promises of the run that it
/// writes.
pub fn kept_versions_hold()
    ensures { (c : Config) (lines : List ScheduleLine) → KeptVersionsHold c (run_in c lines) }
{}
