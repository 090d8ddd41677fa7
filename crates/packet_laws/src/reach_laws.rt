ghost use Rattle.std.specs.Prelude.{◌≤◌, List, length};
ghost use Rattle.locus_ids.specs.declared.config.Config.{Config};
ghost use Rattle.schedule_lines.specs.declared.line.ScheduleLine.{ScheduleLine};
ghost use Rattle.the_run.specs.Runs.{run_in};
ghost use Rattle.tree_laws.specs.Orders.Joining.{PacksAreOfSites};
ghost use Rattle.rest_laws.specs.of_row_laws.Shown.{EachRecord, trace_of};
ghost use Rattle.rest_laws.specs.of_row_laws.Voids.{LinesFit};
ghost use Rattle.packet_laws.specs.Reaching.Reach.{IsReached};

/// In the trace of every schedule whose lines are in range for the cluster each grant and each refusal is of an open of the site of its
/// call, under a serial number from 1 to 134,479,872: each serial number goes out in a packet. And each listed packet has a number from
/// 1 on, up to the same, and is from and to one of the sixteen sites.
pub fn records_tell_low_numbers()
    ensures { (c : Config) (lines : List ScheduleLine) → LinesFit c lines → PacksAreOfSites c → length c.packs ≤ 4 → EachRecord IsReached (trace_of (run_in c lines)) }
{}
