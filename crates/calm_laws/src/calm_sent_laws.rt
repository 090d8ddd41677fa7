ghost use Rattle.std.specs.Prelude.{List};
ghost use Rattle.locus_ids.specs.declared.config.Config.{Config};
ghost use Rattle.schedule_lines.specs.declared.line.ScheduleLine.{ScheduleLine};
ghost use Rattle.the_run.specs.Runs.{run_in};
ghost use Rattle.calm_laws.specs.SentCalm.Standing.{InstancesStand, PacketsStand, ReportsStand};

/// After every schedule, what a synchronization site has answered stands in its tables, as long as it runs in that boot and is in that
/// epoch: it has the report of each site that it told so, and each open that it told as granted is granted there, or over. And that a
/// storage site closes an instance was told the synchronization site of the file on which it has begun it.
pub fn packets_stand()
    ensures { (c : Config) (lines : List ScheduleLine) → PacketsStand c (run_in c lines) }
{}

/// After every schedule, a site in an epoch reports each group of which it has a pack still, or a member has its report while that is
/// in the epoch.
pub fn reports_stand()
    ensures { (c : Config) (lines : List ScheduleLine) → ReportsStand c (run_in c lines) }
{}

/// After every schedule, each instance that a site in an epoch has, or of which a waiting call asks something, was granted by a member,
/// which has it as granted, or as over, while it is in the epoch.
pub fn instances_stand()
    ensures { (c : Config) (lines : List ScheduleLine) → InstancesStand (run_in c lines) }
{}
