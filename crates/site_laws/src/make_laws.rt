//! Laws of every run about files that are being made: a number is reserved for a file of which there is no version yet, and a file that
//! is being made is nobody else's.
ghost use Rattle.std.specs.Prelude.{List};
ghost use Rattle.locus_ids.specs.declared.config.Config.{Config};
ghost use Rattle.schedule_lines.specs.declared.line.ScheduleLine.{ScheduleLine};
ghost use Rattle.the_run.specs.Runs.{run_in};
ghost use Rattle.site_laws.specs.Vectors.Written.{past_of};
ghost use Rattle.site_laws.specs.Makes.Fresh.{NumbersAreFresh};
ghost use Rattle.site_laws.specs.Makes.Holding.{MakesAreReserved, ReservesAreOfMakes};
ghost use Rattle.site_laws.specs.Makes.Locked.{HoldsAreLocked};
ghost use Rattle.site_laws.specs.Makes.First.{MakesCommitFirst};
ghost use Rattle.site_laws.specs.Makes.Reporting.{TablesHaveReports};
ghost use Rattle.site_laws.specs.Makes.Naming.{GrantsNameWhoBegins};

/// After every schedule, when the number of a file was reserved nobody had committed a version of the file, and it is no root.
pub fn numbers_are_fresh()
    ensures { (c : Config) (lines : List ScheduleLine) → NumbersAreFresh (past_of (run_in c lines).trace) }
{}

/// After every schedule each grant of a make is of a file whose number a storage site had reserved for the instance.
pub fn makes_are_reserved()
    ensures { (c : Config) (lines : List ScheduleLine) → MakesAreReserved (past_of (run_in c lines).trace) }
{}

/// After every schedule, under the key of an instance for which a number was reserved in an epoch nothing but a make was granted.
pub fn reserves_are_of_makes()
    ensures { (c : Config) (lines : List ScheduleLine) → ReservesAreOfMakes (past_of (run_in c lines).trace) }
{}

/// After every schedule, beside each earlier hold of a file in an epoch - a plain grant, or a make from where the number of the
/// file was reserved - both only read, or the earlier one was over: released, or for a plain grant refused after all.
pub fn holds_are_locked()
    ensures { (c : Config) (lines : List ScheduleLine) → HoldsAreLocked (past_of (run_in c lines).trace) }
{}

/// After every schedule a site that committed a file of which there was no version before, and that is no root, was running a
/// make of it, which was granted, and for which it had reserved the number.
pub fn makes_commit_first()
    ensures { (c : Config) (lines : List ScheduleLine) → MakesCommitFirst (past_of (run_in c lines).trace) }
{}

/// After every schedule a table of a running site has no opens before its group has started in the epoch, and once it has, all
/// the members that have a pack of the group have reported.
pub fn tables_have_reports()
    ensures { (c : Config) (lines : List ScheduleLine) → TablesHaveReports c (run_in c lines) }
{}

/// After every schedule, the storage site that a grant names, of a make too, is the one that has begun the instance in the epoch.
pub fn grants_name_who_begins()
    ensures { (c : Config) (lines : List ScheduleLine) → GrantsNameWhoBegins (past_of (run_in c lines).trace) }
{}
