//! Laws of every run about where files are: a file's versions are begun, made and adopted at sites that have a pack of its group, and
//! the first of them at the site whose number it has.
ghost use Rattle.std.specs.Prelude.{List};
ghost use Rattle.locus_ids.specs.declared.config.Config.{Config};
ghost use Rattle.schedule_lines.specs.declared.line.ScheduleLine.{ScheduleLine};
ghost use Rattle.the_run.specs.Runs.{run_in};
ghost use Rattle.site_laws.specs.Vectors.Written.{past_of};
ghost use Rattle.site_laws.specs.Packs.Packs.{FilesLieInPacks};
ghost use Rattle.site_laws.specs.Packs.Making.{FilesAreMadeAtHome, HomesCommitFirst};

/// After every schedule, whoever began an instance of a file, reserved its number, committed it or adopted it, and each
/// storage site at which it was granted, has a pack of its group. So has each site whose disk, running or stopped, holds a
/// copy of it, and each site of the set of that copy. A commit without parents is of one of its site's own numbers.
pub fn files_lie_in_packs()
    ensures { (c : Config) (lines : List ScheduleLine) → FilesLieInPacks c (run_in c lines) }
{}

/// After every schedule each commit in the trace is of a root directory, of a file of which a version was committed before
/// it, or of one of the 64 inode numbers of its site; and each number that a site has reserved is one of its own.
pub fn files_are_made_at_home()
    ensures { (c : Config) (lines : List ScheduleLine) → FilesAreMadeAtHome (past_of (run_in c lines).trace) }
{}

/// After every schedule, whoever has committed a file that isn't a root, the site whose inode number it has committed it too,
/// by then at the latest.
pub fn homes_commit_first()
    ensures { (c : Config) (lines : List ScheduleLine) → HomesCommitFirst (past_of (run_in c lines).trace) }
{}
