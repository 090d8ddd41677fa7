//! Laws of every run about those who write: who may change a file, at which site, and that it does so alone.
ghost use Rattle.std.specs.Prelude.{List};
ghost use Rattle.locus_ids.specs.declared.config.Config.{Config};
ghost use Rattle.schedule_lines.specs.declared.line.ScheduleLine.{ScheduleLine};
ghost use Rattle.the_run.specs.Runs.{run_in};
ghost use Rattle.site_laws.specs.Vectors.Written.{past_of};
ghost use Rattle.site_laws.specs.Packs.WriterAsking.{ChangesAreAskedToWrite, ReadersChangeNothing};
ghost use Rattle.site_laws.specs.Packs.WriterGranting.{GrantsAreAlike, GrantsAreApart, GrantsNameTheirSite};
ghost use Rattle.site_laws.specs.Packs.WriterWriters.{CommitsAreGrantedHere, WritersAreAlone};

/// After every schedule, for each packet that asks an operation that changes a file its sender has asked in the same boot to
/// open the instance otherwise than for reading.
pub fn changes_are_asked_to_write()
    ensures { (c : Config) (lines : List ScheduleLine) → ChangesAreAskedToWrite (run_in c lines) }
{}

/// After every schedule no operation that changes a file was asked under a serial number whose open was for reading.
pub fn readers_change_nothing()
    ensures { (c : Config) (lines : List ScheduleLine) → ReadersChangeNothing (run_in c lines) }
{}

/// After every schedule, all grants under an instance's key in an epoch are of one file, in one mode.
pub fn grants_are_alike()
    ensures { (c : Config) (lines : List ScheduleLine) → GrantsAreAlike (past_of (run_in c lines).trace) }
{}

/// After every schedule, of two grants of one file in an epoch under two keys, makes apart, both only read, or one of them is
/// over: its instance was released, or its open refused after all.
pub fn grants_are_apart()
    ensures { (c : Config) (lines : List ScheduleLine) → GrantsAreApart (past_of (run_in c lines).trace) }
{}

/// After every schedule, the storage site that a grant names is the one that has begun the instance in the epoch, makes apart.
pub fn grants_name_their_site()
    ensures { (c : Config) (lines : List ScheduleLine) → GrantsNameTheirSite (past_of (run_in c lines).trace) }
{}

/// After every schedule, a grant of a file that isn't to read and isn't over is the only one of the file in its epoch that
/// isn't over, makes apart.
pub fn writers_are_alone()
    ensures { (c : Config) (lines : List ScheduleLine) → WritersAreAlone (past_of (run_in c lines).trace) }
{}

/// After every schedule, each site has committed a file only under an instance that was granted on that file in an epoch, and
/// that it has begun on it; the grant names that site, where it is no make.
pub fn commits_are_granted_here()
    ensures { (c : Config) (lines : List ScheduleLine) → CommitsAreGrantedHere (past_of (run_in c lines).trace) }
{}
