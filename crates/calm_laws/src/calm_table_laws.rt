ghost use Rattle.std.specs.Prelude.{List};
ghost use Rattle.locus_ids.specs.declared.config.Config.{Config};
ghost use Rattle.schedule_lines.specs.declared.line.ScheduleLine.{ScheduleLine};
ghost use Rattle.the_run.specs.Runs.{run_in};
ghost use Rattle.calm_laws.specs.TablesCalm.Shapes.{TablesAreShaped};

/// After every schedule each table of a site in an epoch is of a group that the site synchronizes. Before the start it holds opens and
/// looks of the group alone; what it has kept of the last look of each process answers that look, or passes it to a member; whoever is
/// noted to hold a version is a member, and so is each storage site that is asked to open; and each open was granted or refused, unless
/// it is a make that waits for its number.
pub fn tables_keep_their_shape()
    ensures { (c : Config) (lines : List ScheduleLine) → TablesAreShaped c (run_in c lines) }
{}
