ghost use Rattle.std.specs.Prelude.{◌≡◌, ℕ};
ghost use Rattle.locus_ids.specs.declared.config.Config.{Config};
ghost use Rattle.locus_ids.specs.declared.ids.EpochId.{EpochId};
ghost use Rattle.locus_ids.specs.declared.sites.Links.{Links};
ghost use Rattle.locus_ids.specs.declared.sites.Members.{Members};
ghost use Rattle.locus_ids.specs.declared.sites.Sites.{Sites};
ghost use Rattle.role_steps.specs.Views.{SiteView, quiet};
ghost use Rattle.role_steps.specs.Epochs.{leaves, begins_round, starts_merge, starts_part, on_poll, on_refuse, on_promise, on_joined, on_install, joins, installs_all, passes_over, joined_view, joined_packet};
ghost use Rattle.merge_protocol.specs.Parts.{epoch_part, with_part, alone, epoch_named, left_at_poll, left_at_refuse};
ghost use Rattle.merge_protocol.specs.Laws.{LeavesBy, joins_by, installs_by, passes_by, takes_install_by};

/// What a site does where it leaves an epoch is what its place in epochs does, and then what its other roles do that leave it.
pub fn leaving_by_parts()
    ensures leave { (me : ℕ) (v : SiteView) → LeavesBy me (epoch_named v.epoch) v (leaves me) }
    ensures merge { (me : ℕ) (links : Links) (v : SiteView) → LeavesBy me (epoch_named v.epoch) v (starts_merge me links) }
    ensures part { (me : ℕ) (links : Links) (v : SiteView) → LeavesBy me (epoch_named v.epoch) v (starts_part me links) }
    ensures poll { (me : ℕ) (links : Links) (from from_boot : ℕ) (id : EpochId) (v : SiteView) → LeavesBy me (left_at_poll id (epoch_part v)) v (on_poll me links from from_boot id) }
    ensures refuse { (me : ℕ) (links : Links) (id promised : EpochId) (v : SiteView) → LeavesBy me (left_at_refuse id (epoch_part v)) v (on_refuse me links id promised) }
{}

/// What changes a site's place in epochs alone.
pub fn quiet_by_parts()
    ensures promise { (from from_boot : ℕ) (id : EpochId) (reach : Sites) (v : SiteView) → on_promise from from_boot id reach v ≡ quiet (with_part (epoch_part (on_promise from from_boot id reach (alone (epoch_part v))).view) v) }
    ensures joined { (from : ℕ) (id : EpochId) (v : SiteView) → on_joined from id v ≡ quiet (with_part (epoch_part (on_joined from id (alone (epoch_part v))).view) v) }
{}

/// What a site does where it joins an epoch: its place in epochs joins, then its other roles do, and then the members that
/// wait are told.
pub fn joining_by_parts()
    ensures join { (c : Config) (me : ℕ) (id : EpochId) (members : Members) (v : SiteView) → joins c me id members v ≡ joins_by c me id members v }
    ensures install { (c : Config) (me from from_boot : ℕ) (id : EpochId) (members : Members) (v : SiteView) → on_install c me from from_boot id members v ≡ takes_install_by c me from from_boot id members v }
    ensures installs { (me : ℕ) (id : EpochId) (members : Members) (v : SiteView) → installs_all me id members v ≡ installs_by me id members v }
{}

/// What a site does at the end of an event: sites are passed over, and the epoch that is decided is joined.
pub fn passing_by_parts()
    ensures { (c : Config) (me : ℕ) (links : Links) (v : SiteView) → passes_over c me links v ≡ passes_by c me links v }
{}
