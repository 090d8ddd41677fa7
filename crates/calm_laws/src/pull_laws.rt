ghost use Rattle.std.specs.Prelude.{ℕ, ◌≡◌, true, List, Some};
ghost use Rattle.locus_ids.specs.declared.config.Config.{Config};
ghost use Rattle.locus_ids.specs.declared.ids.EpochId.{EpochId};
ghost use Rattle.schedule_lines.specs.declared.line.ScheduleLine.{ScheduleLine};
ghost use Rattle.the_run.specs.Runs.{run_in};
ghost use Rattle.the_run.specs.Worlds.{Line};
ghost use Rattle.lawful_trace.specs.Progress.{is_packed_in};
ghost use Rattle.tree_laws.specs.Following.{IsFollowed};
ghost use Rattle.tree_laws.specs.Instances.{IsStarted};
ghost use Rattle.tree_laws.specs.Printed.{entries};
ghost use Rattle.store_laws.specs.OneTree.Rest.{Past};
ghost use Rattle.calm_laws.specs.Pulls.Held.{HeldNeverFalls};
ghost use Rattle.calm_laws.specs.Pulls.Known.{KnownAreUnder};
ghost use Rattle.calm_laws.specs.Pulls.Pulls.{PullsAscend};

/// In every run what each site pulls stands in ascending order of files, each once.
pub fn pulls_ascend()
    ensures { (c : Config) (lines : List ScheduleLine) → PullsAscend (run_in c lines) }
{}

/// Of a file with one kept version each known version is that one, or has a lower vector.
pub fn known_are_under_the_only_kept()
    ensures { (c : Config) (trace : List Line) → Past c trace → KnownAreUnder c trace }
{}

/// What a site has of a file in an epoch is, later, the same version or one with a higher vector.
pub fn held_never_falls()
    ensures { (c : Config) (new old : List Line) → HeldNeverFalls c new old }
{}

/// A group has started in an epoch only where some member of the epoch has a pack of it.
pub fn started_groups_are_packed()
    ensures { (c : Config) (trace : List Line) → IsFollowed c trace → (e : EpochId) (group : ℕ) → IsStarted c trace e group → is_packed_in c (entries trace) (Some e) group ≡ true }
{}
