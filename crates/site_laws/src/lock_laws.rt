ghost use Rattle.std.specs.Prelude.{List};
ghost use Rattle.locus_ids.specs.declared.config.Config.{Config};
ghost use Rattle.schedule_lines.specs.declared.line.ScheduleLine.{ScheduleLine};
ghost use Rattle.the_run.specs.Runs.{run_in};
ghost use Rattle.site_laws.specs.Vectors.Written.{past_of};
ghost use Rattle.site_laws.specs.Locks.Asked.{WhatIsAskedIsBegun};
ghost use Rattle.site_laws.specs.Locks.Going.{InstancesGoOn};
ghost use Rattle.site_laws.specs.Locks.Grants.{GrantsAreLocked};
ghost use Rattle.site_laws.specs.Locks.Joins.{JoinsAreOnce};
ghost use Rattle.site_laws.specs.Locks.Locks.{TablesAreLocked};
ghost use Rattle.site_laws.specs.Locks.Writing.{ScriptsOpenWhatTheyChange};

/// After every schedule each instance went on as it must: a storage site begins it after its group has started in the
/// epoch, and shuts what it has begun; an operation is done on what was granted and begun; a site commits a file under an
/// instance that it has begun on that file in an epoch, and that was granted in it; what is released was granted on that
/// file, and shut before; and the grant of a make names the number of a file that a storage site has begun for it.
pub fn instances_go_on()
    ensures { (c : Config) (lines : List ScheduleLine) → InstancesGoOn (past_of (run_in c lines).trace) }
{}

/// After every schedule the locks hold in each table of each running site: of two open rows of one file, makes apart, both
/// only read.
pub fn tables_are_locked()
    ensures { (c : Config) (lines : List ScheduleLine) → TablesAreLocked (run_in c lines) }
{}

/// Whatever a call is answered, its script asks an operation that changes a file only of an instance that it has opened
/// otherwise than for reading, or, where the call is a write or a cut, of the one that its descriptor names.
pub fn scripts_open_what_they_change()
    ensures { ScriptsOpenWhatTheyChange }
{}

/// After every schedule no site has joined an epoch twice, in whichever boot.
pub fn joins_are_once()
    ensures { (c : Config) (lines : List ScheduleLine) → JoinsAreOnce (past_of (run_in c lines).trace) }
{}

/// After every schedule, of two grants of one file in one epoch, makes apart, both only read, or the earlier one was over
/// when the later one was given: its instance was released, or its open refused after all.
pub fn grants_are_locked()
    ensures { (c : Config) (lines : List ScheduleLine) → GrantsAreLocked (past_of (run_in c lines).trace) }
{}

/// After every schedule, whatever operation or close a waiting call of a running site asks in its epoch is of an instance that
/// was granted in that epoch at the site that is asked, and that some storage site has begun.
pub fn what_is_asked_is_begun()
    ensures { (c : Config) (lines : List ScheduleLine) → WhatIsAskedIsBegun (run_in c lines) }
{}
