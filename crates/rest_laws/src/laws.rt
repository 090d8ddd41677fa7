//! What the one tree rests on of every run and of every trace whose lines come as they may: rows of sites, ranges, packs and stamps; and
//! from these what the steps of the roles rest on.
ghost use Rattle.std.specs.Prelude.{◌≤◌, List, length};
ghost use Rattle.locus_ids.specs.declared.config.Config.{Config};
ghost use Rattle.schedule_lines.specs.declared.line.ScheduleLine.{ScheduleLine};
ghost use Rattle.locus_ids.specs.declared.ids.EpochId.{EpochId};
ghost use Rattle.schedule_lines.specs.Cluster.{config_of};
ghost use Rattle.schedule_lines.specs.Schedule.{AreInOrder};
ghost use Rattle.the_run.specs.Runs.{run, run_in};
ghost use Rattle.the_run.specs.Worlds.{Line};
ghost use Rattle.store_laws.specs.of_row_laws.Voids.{LinesFit};
ghost use Rattle.store_laws.specs.of_tree_laws.Orders.Joining.{PacksAreOfSites};
ghost use Rattle.store_laws.specs.Rests.{StoreRests};
ghost use Rattle.store_laws.specs.of_tree_laws.Syncs.Making.{MakesAreSaid};
ghost use Rattle.store_laws.specs.of_tree_laws.Syncs.Serving.{CallsAreKnown, FilesAreOrdered};
ghost use Rattle.store_laws.specs.OneTree.Rest.{IsRest, Past};
ghost use Rattle.rest_laws.specs.Asking.{OpensAreSaid};
ghost use Rattle.rest_laws.specs.Caching.{CachedPagesAreRight};
ghost use Rattle.store_laws.specs.OneTree.Roles.{RolesDo};
ghost use Rattle.tree_laws.specs.Following.{IsFollowed, RowsAreLawful};
ghost use Rattle.tree_laws.specs.Printed.{entries};

/// After every schedule whose lines are in range for the cluster each boot, stop and join came as it may, sites, processes, words and inode numbers are in range, versions lie where packs are, and each
/// commit is a new version.
pub fn every_run_has_its_rest()
    ensures { (c : Config) (lines : List ScheduleLine) → LinesFit c lines → PacksAreOfSites c → IsRest c (run_in c lines).trace }
{}

/// What the steps of storage sites and of synchronization sites rest on is so wherever all that was told came as it may: who is in an
/// epoch and who calls are of the sixteen sites, process 0 makes mends alone, files have numbers of 16 bits, makes are asked for some
/// sites as their words say, whole contents are asked of kept versions, and who has the only kept version at least has it.
pub fn roles_rest_on_the_past()
    ensures stores { (c : Config) (trace : List Line) → Past c trace → StoreRests c trace }
    ensures calls { (c : Config) (trace : List Line) → Past c trace → OpensAreSaid c trace → CallsAreKnown c trace }
    ensures files { (c : Config) (trace : List Line) → Past c trace → (e : EpochId) → FilesAreOrdered c trace e }
    ensures makes { (c : Config) (trace : List Line) → Past c trace → MakesAreSaid c trace }
{}

/// Each role does its steps as it may: the laws of roles give, from what came so far, that looks
/// are served and opens answered, granted opens begun, ended instances ended, pages sent and noted, and calls answered when a site
/// leaves its epoch.
pub fn roles_do_as_they_may()
    ensures { (c : Config) → length c.packs ≤ 4 → RolesDo c }
{}

/// After every schedule whose lines are in range for the cluster, whatever was told came as it may, and each printed record is lawful. So it is of the lines that the
/// reader of schedules accepts, in the cluster that their header makes.
pub fn every_run_is_one_tree()
    ensures told { (c : Config) (lines : List ScheduleLine) → LinesFit c lines → PacksAreOfSites c → length c.packs ≤ 4 → IsFollowed c (run_in c lines).trace }
    ensures rows { (c : Config) (lines : List ScheduleLine) → LinesFit c lines → PacksAreOfSites c → length c.packs ≤ 4 → RowsAreLawful c (entries (run_in c lines).trace) }
    ensures read { (lines : List ScheduleLine) → AreInOrder lines → RowsAreLawful (config_of lines) (entries (run lines).trace) }
{}

/// After every schedule whose lines are in range for the cluster each page that a running site has in memory is that page of its version:
/// of the content that the commit with this stamp told. So it is of the lines that the reader of schedules accepts.
pub fn cached_pages_are_of_their_versions()
    ensures told { (c : Config) (lines : List ScheduleLine) → LinesFit c lines → PacksAreOfSites c → length c.packs ≤ 4 → CachedPagesAreRight c (run_in c lines) }
    ensures read { (lines : List ScheduleLine) → AreInOrder lines → CachedPagesAreRight (config_of lines) (run lines) }
{}
