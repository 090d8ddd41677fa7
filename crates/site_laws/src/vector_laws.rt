//! Laws of every run about versions: what the disks hold, by the trace.
ghost use Rattle.std.specs.Prelude.{List};
ghost use Rattle.locus_ids.specs.declared.config.Config.{Config};
ghost use Rattle.run_laws.specs.of_schedule_lines.declared.line.ScheduleLine.{ScheduleLine};
ghost use Rattle.run_laws.specs.of_the_run.Runs.{run_in};
ghost use Rattle.site_laws.specs.Vectors.Held.{CopiesAreTold};
ghost use Rattle.site_laws.specs.Vectors.Written.{past_of, InstancesAgree, VectorsAreWritten, CommitsAreNumbered};

/// After every schedule each disk, of a running site or a stopped one, holds of each file just the version that its site
/// told last: a commit's with its content, its stamp and that stamp's number as its own counter; an adoption's with its
/// stamp; and where none was told what the format wrote.
pub fn copies_are_told()
    ensures { (c : Config) (lines : List ScheduleLine) → CopiesAreTold c (run_in c lines) }
{}

/// After every schedule in whose trace the storage sites opened what was granted, each copy on a disk is of a version told in
/// the trace, or the format's, and has its written vector: counter by counter the greatest of its parents' written vectors,
/// with that of the committing site raised by one.
pub fn vectors_are_written()
    ensures { (c : Config) (lines : List ScheduleLine) → InstancesAgree (past_of (run_in c lines).trace) → VectorsAreWritten (run_in c lines) }
{}

/// After every such schedule each commit's stamp names its site, its parents were told before it, and its number is one more
/// than the greatest that their written vectors count of that site.
pub fn commits_are_numbered()
    ensures { (c : Config) (lines : List ScheduleLine) → InstancesAgree (past_of (run_in c lines).trace) → CommitsAreNumbered (past_of (run_in c lines).trace) }
{}
