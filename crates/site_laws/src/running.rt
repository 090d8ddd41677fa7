//! Laws of every run about instances that run: what a storage site has of them, at which site they are begun, and that operations and
//! commits are of those alone that were granted, and neither shut nor released.
ghost use Rattle.std.specs.Prelude.{List};
ghost use Rattle.locus_ids.specs.declared.config.Config.{Config};
ghost use Rattle.schedule_lines.specs.declared.line.ScheduleLine.{ScheduleLine};
ghost use Rattle.the_run.specs.Runs.{run_in};
ghost use Rattle.site_laws.specs.Vectors.Written.{past_of};
ghost use Rattle.site_laws.specs.Makes.RunningRunning.{BegunAtOneSite, InstancesRun, OpensAreAsGranted, PlainGrantsStand, WritersCommitAlone};
ghost use Rattle.site_laws.specs.Makes.RunningStores.{StoresStand};

/// After every schedule each running site that is in an epoch has what it has begun there, on the file on which it was begun;
/// what it has shut doesn't run; each of its instances was asked for by a packet, in its mode and on its file, and one that owes
/// a version isn't to read.
pub fn stores_stand()
    ensures { (c : Config) (lines : List ScheduleLine) → StoresStand (run_in c lines) }
{}

/// After every schedule, all that was begun under an instance's key in an epoch was begun at one storage site.
pub fn instances_are_begun_at_one_site()
    ensures { (c : Config) (lines : List ScheduleLine) → BegunAtOneSite (past_of (run_in c lines).trace) }
{}

/// After every schedule no instance was begun twice in an epoch, at whichever sites; each operation was executed, and each
/// version committed, under an instance that runs by all that was told before it: a storage site, for a commit this one, has
/// begun it on the file, and it was granted on it, but neither shut by any site nor released; and a commit's isn't to read.
pub fn instances_run()
    ensures { (c : Config) (lines : List ScheduleLine) → InstancesRun (past_of (run_in c lines).trace) }
{}

/// After every schedule, each packet that asks for an instance to be opened asks it in the mode in which the instance was granted
/// in that epoch, and on that file where it is no make.
pub fn opens_are_as_granted()
    ensures { (c : Config) (lines : List ScheduleLine) → OpensAreAsGranted (run_in c lines) }
{}

/// After every schedule no grant of an instance that was begun was refused in the same epoch, makes apart: such a grant is over
/// only where its instance is released.
pub fn plain_grants_stand()
    ensures { (c : Config) (lines : List ScheduleLine) → PlainGrantsStand (past_of (run_in c lines).trace) }
{}

/// After every schedule each site has committed a file under an instance whose grant, by all that was told before the commit,
/// wasn't to read and wasn't over, and was the only one of the file in its epoch that wasn't, makes apart.
pub fn writers_commit_alone()
    ensures { (c : Config) (lines : List ScheduleLine) → WritersCommitAlone (past_of (run_in c lines).trace) }
{}
