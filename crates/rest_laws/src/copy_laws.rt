ghost use Rattle.std.specs.Prelude.{◌≤◌, List, length};
ghost use Rattle.locus_ids.specs.declared.config.Config.{Config};
ghost use Rattle.schedule_lines.specs.declared.line.ScheduleLine.{ScheduleLine};
ghost use Rattle.the_run.specs.Runs.{run_in};
ghost use Rattle.tree_laws.specs.Orders.Joining.{PacksAreOfSites};
ghost use Rattle.store_laws.specs.of_row_laws.Voids.{LinesFit};
ghost use Rattle.rest_laws.specs.CopiesKept.Contents.{CopiesHaveContents};
ghost use Rattle.rest_laws.specs.CopiesKept.Hold.{VersionsAndCopiesHold, VersionsStand};

/// After every schedule whose lines are in range for the cluster each copy on a disk, of a running site or a stopped one, has the bytes
/// that its version was committed with, also where the site has pulled the changed pages of the version and laid them over the copy that
/// it had; the format's copy has none. This rests on the one tree: only there a delta is of the copy over which it is laid.
pub fn copies_have_contents()
    ensures { (c : Config) (lines : List ScheduleLine) → LinesFit c lines → PacksAreOfSites c → length c.packs ≤ 4 → CopiesHaveContents (run_in c lines) }
{}

/// What holds of versions, of what epochs keep of them, and of the stamps and vectors of copies, after every schedule.
pub fn versions_stand()
    ensures { (c : Config) (lines : List ScheduleLine) → VersionsStand c (run_in c lines) }
{}

/// All that holds of versions and copies together: what the program promises of the run that it writes.
pub fn versions_and_copies_hold()
    ensures { (c : Config) (lines : List ScheduleLine) → LinesFit c lines → PacksAreOfSites c → length c.packs ≤ 4 → VersionsAndCopiesHold c (run_in c lines) }
{}
