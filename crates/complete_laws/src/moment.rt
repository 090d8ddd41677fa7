//! What stands in the midst of a line as well as after it: each event of a run, whichever line it belongs to and whether or not it
//! passes a limit, comes at a moment in which all facts stand that the laws give of worlds after whole lines.
ghost use Rattle.std.specs.Prelude.{◌+◌, ◌++◌, ◌∷◌, ◌≤◌, [], List, length};
ghost use Rattle.locus_ids.specs.declared.config.Config.{Config};
ghost use Rattle.schedule_lines.specs.declared.line.Line.{Line};
ghost use Rattle.schedule_lines.specs.declared.line.ScheduleLine.{ScheduleLine};
ghost use Rattle.schedule_lines.specs.declared.line.ScheduleLine.TheVariants.{Event as EventLine};
ghost use Rattle.the_run.specs.Runs.{run_in};
ghost use Rattle.packet_laws.specs.of_row_laws.Voids.{LinesFit};
ghost use Rattle.packet_laws.specs.of_tree_laws.Orders.Joining.{PacksAreOfSites};
ghost use Rattle.complete_laws.specs.MomentEvents.{EachEvent};
ghost use Rattle.complete_laws.specs.MomentMoments.{ComesInTime};

/// After every schedule, whatever line comes next: each event in its course, the ticks and the deliveries of a round as well, comes at a
/// moment in which each site and each packet is so by the trace, packs have room and epochs have low numbers, and may come then: a call is
/// one that a line may ask, and a packet was sent.
pub fn events_come_as_they_may()
    ensures { (c : Config) (lines : List ScheduleLine) (l : Line) → LinesFit c (lines ++ EventLine l ∷ []) → PacksAreOfSites c → length c.packs ≤ 4 → EachEvent (ComesInTime c) c (length lines + 1) l (run_in c lines) }
{}
