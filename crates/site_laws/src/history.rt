//! Laws of every run about the history of a file: what written vectors tell of its commits.
ghost use Rattle.std.specs.Prelude.{List};
ghost use Rattle.locus_ids.specs.declared.ids.FileId.{FileId};
ghost use Rattle.locus_ids.specs.declared.config.Config.{Config};
ghost use Rattle.run_laws.specs.of_schedule_lines.declared.line.ScheduleLine.{ScheduleLine};
ghost use Rattle.run_laws.specs.of_the_run.Runs.{run_in};
ghost use Rattle.site_laws.specs.Vectors.Written.{past_of, InstancesAgree};
ghost use Rattle.site_laws.specs.Vectors.HistoryCommits.{commits_of, StampsAreOnce, NumbersFit, SitesAreKnown, VectorsTell, CopiesAreTrue, CommitsAreHeld};

/// After every schedule each site, and the site of each commit, is one of the sixteen.
pub fn sites_are_known()
    ensures { (c : Config) (lines : List ScheduleLine) → SitesAreKnown (run_in c lines) }
{}

/// After every schedule in whose trace the storage sites opened what was granted and no file has two commits with one stamp:
/// a commit's number counts the commits of its file at its site, the commits of one site form a chain, a written vector
/// counts the ancestors by site, and of two versions one is an ancestor of the other exactly where its vector is at most the
/// other's.
pub fn vectors_tell_ancestors()
    ensures { (c : Config) (lines : List ScheduleLine) →
        InstancesAgree (past_of (run_in c lines).trace) → StampsAreOnce (past_of (run_in c lines).trace) →
        (file : FileId) → VectorsTell file (commits_of file (past_of (run_in c lines).trace)) }
{}

/// After every such schedule each copy on a disk, of a running site or a stopped one, is the format's or of a commit of its
/// file in the trace, and has the vector that the history gives that version.
pub fn copies_are_true()
    ensures { (c : Config) (lines : List ScheduleLine) →
        InstancesAgree (past_of (run_in c lines).trace) → StampsAreOnce (past_of (run_in c lines).trace) → CopiesAreTrue (run_in c lines) }
{}

/// After every such schedule whose files have inode numbers of 16 bits, a site that has committed a file holds a copy of it
/// that has all those commits among its ancestors.
pub fn commits_are_held()
    ensures { (c : Config) (lines : List ScheduleLine) →
        InstancesAgree (past_of (run_in c lines).trace) → StampsAreOnce (past_of (run_in c lines).trace) →
        NumbersFit (past_of (run_in c lines).trace) → CommitsAreHeld (run_in c lines) }
{}
