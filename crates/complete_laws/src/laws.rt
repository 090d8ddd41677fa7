//! No event of a run is refused as unfit: in every run, after every schedule and in the midst of every line, each event finds what it
//! needs of disks, tables, numbers and packets. The world stands on this room, and says by it that want of memory is the one fault that
//! may come.
ghost use Rattle.std.specs.Prelude.{◌+◌, ◌++◌, ◌∷◌, ◌≤◌, [], List, length};
ghost use Rattle.locus_ids.specs.declared.config.Config.{Config};
ghost use Rattle.schedule_lines.specs.declared.line.Line.{Line};
ghost use Rattle.schedule_lines.specs.declared.line.ScheduleLine.{ScheduleLine};
ghost use Rattle.schedule_lines.specs.declared.line.ScheduleLine.TheVariants.{Event as EventLine};
ghost use Rattle.the_run.specs.Runs.{run_in};
ghost use Rattle.packet_laws.specs.of_row_laws.Voids.{LinesFit};
ghost use Rattle.packet_laws.specs.of_tree_laws.Orders.Joining.{PacksAreOfSites};
ghost use Rattle.complete_laws.specs.Lines.{CanDo};

/// After every schedule, whatever line comes next: each event in its course, whether or not it passes a limit, finds what it needs so that
/// it isn't refused as unfit, and a boot has a number.
pub fn every_line_can_be_done()
    ensures { (c : Config) (lines : List ScheduleLine) (l : Line) → LinesFit c (lines ++ EventLine l ∷ []) → PacksAreOfSites c → length c.packs ≤ 4 → CanDo c (length lines + 1) l (run_in c lines) }
{}
