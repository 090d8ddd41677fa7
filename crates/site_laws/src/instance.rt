//! Laws of every run about instances: a serial number names one open, an instance has one storage site and is begun once, and what a
//! storage site opens is what was granted.
ghost use Rattle.std.specs.Prelude.{List};
ghost use Rattle.locus_ids.specs.declared.config.Config.{Config};
ghost use Rattle.schedule_lines.specs.declared.line.ScheduleLine.{ScheduleLine};
ghost use Rattle.the_run.specs.Runs.{run_in};
ghost use Rattle.site_laws.specs.Vectors.Written.{past_of, InstancesAgree};
ghost use Rattle.site_laws.specs.Packs.InstanceLaws.{SerialsAreOnce, PlacesAreOnce, BegunOnce};

/// After every schedule, two opens that a site asked in one boot under one serial number are of one file, asked in the same way.
pub fn serials_are_once()
    ensures { (c : Config) (lines : List ScheduleLine) → SerialsAreOnce (run_in c lines) }
{}

/// After every schedule, all packets that ask for an instance of an epoch to be opened went to one storage site.
pub fn instances_have_one_site()
    ensures { (c : Config) (lines : List ScheduleLine) → PlacesAreOnce (run_in c lines) }
{}

/// After every schedule, all that storage sites began under an instance's key in an epoch is one file.
pub fn instances_are_begun_once()
    ensures { (c : Config) (lines : List ScheduleLine) → BegunOnce (past_of (run_in c lines).trace) }
{}

/// After every schedule, what a storage site began under an instance's key in an epoch is the file that was granted under it.
pub fn instances_agree()
    ensures { (c : Config) (lines : List ScheduleLine) → InstancesAgree (past_of (run_in c lines).trace) }
{}
