//! What comes to a storage site in a run is fit, as its code asks it: the laws of every run give each condition.
ghost use Rattle.std.specs.Prelude.{ℕ, ◌≡◌, ◌-◌, ◌≤◌, ◌⊎◌, true, List, length, Some};
ghost use Rattle.locus_ids.specs.declared.config.Config.{Config};
ghost use Rattle.locus_ids.specs.declared.ids.EpochId.{EpochId};
ghost use Rattle.locus_ids.specs.declared.ids.FileId.{FileId};
ghost use Rattle.locus_ids.specs.declared.ids.Kind.TheVariants.{Dir};
ghost use Rattle.locus_ids.specs.declared.ids.Stamp.{Stamp};
ghost use Rattle.commit_graph.specs.Versions.{content_of};
ghost use Rattle.tree_model.specs.declared.instance.Instance.{Instance};
ghost use Rattle.tree_model.specs.Files.{kind_of_file};
ghost use Rattle.tree_model.specs.Histories.{history};
ghost use Rattle.tree_laws.specs.Instances.{instance_now};
ghost use Rattle.tree_laws.specs.Printed.{entries};
ghost use Rattle.calm_laws.specs.of_rest_laws.Fits.EntryEntries.{EntriesName, IsLeftMessage};
ghost use Rattle.locus_ids.specs.declared.ids.Serial.{Serial};
ghost use Rattle.locus_ids.specs.Sizes.{pack_pages};
ghost use Rattle.schedule_lines.specs.declared.line.ScheduleLine.{ScheduleLine};
ghost use Rattle.wire_messages.specs.declared.body.Body.{Body};
ghost use Rattle.file_content.specs.Pages.{pages_of};
ghost use Rattle.role_steps.specs.Adoption.{fits_own, is_ready};
ghost use Rattle.role_steps.specs.Epochs.{frame_in};
ghost use Rattle.role_steps.specs.Mends.{mending};
ghost use Rattle.role_steps.specs.OperationEffects.{Mending};
ghost use Rattle.role_steps.specs.Storage.{copy_of, instance_of};
ghost use Rattle.role_steps.specs.Tables.{total};
ghost use Rattle.role_steps.specs.Views.{Frame, SiteView};
ghost use Rattle.role_steps.specs.declared.pulls.Pull.{Pull};
ghost use Rattle.role_steps.specs.declared.rounds.InEpoch.{InEpoch};
ghost use Rattle.the_run.specs.Kept.{Among, WasSent};
ghost use Rattle.the_run.specs.Runs.{run_in};
ghost use Rattle.the_run.specs.Steps.{group_of};
ghost use Rattle.the_run.specs.Worlds.{Line, Numbered, Running, place_at};
ghost use Rattle.packet_laws.specs.of_row_laws.Voids.{LinesFit};
ghost use Rattle.tree_laws.specs.Following.{IsFollowed};
ghost use Rattle.packet_laws.specs.of_tree_laws.Orders.Joining.{PacksAreOfSites};
ghost use Rattle.packet_laws.specs.of_store_laws.OneTree.Places.{InsideFact};
ghost use Rattle.site_node.specs.Fitting.{CanKeep};
ghost use Rattle.site_node.specs.of_site_parts.Fitting.{CanTakeAtStore};
ghost use Rattle.complete_laws.specs.FitCallJoining.{HasGroups, JoinsIfMend, KindsIfMend};

/// After every schedule, what any packet that was sent asks of the storage site of a running site in an epoch, with packs of its groups, may
/// be taken there: an open is of a site, and a commit and a close have what may be stored, and room. Of a mend the tables that it rests on are
/// of inodes; that its contents can be joined is premised.
pub fn no_call_is_unfit()
    ensures { (c : Config) (lines : List ScheduleLine) → LinesFit c lines → PacksAreOfSites c → length c.packs ≤ 4 → (x : Numbered) → WasSent (run_in c lines) x → (v : SiteView) (e : InEpoch) → place_at (run_in c lines) x.packet.to ≡ Some (Running v) → v.epoch ≡ Some e →
        (groups : List ℕ) → HasGroups c x.packet.to groups → (m : Serial → Mending) → JoinsIfMend m x.packet.from x.packet.body → CanTakeAtStore (frame_in c x.packet.to v.boot e) m v.tables groups x.packet.to x.packet.from x.packet.body v.store }
{}

/// After every schedule, what a running site pulls, once it is ready and fits the own copy, may be kept in its packs and has room there.
pub fn no_adoption_is_unfit()
    ensures { (c : Config) (lines : List ScheduleLine) → LinesFit c lines → PacksAreOfSites c → length c.packs ≤ 4 → (s : ℕ) (v : SiteView) (e : InEpoch) → place_at (run_in c lines) s ≡ Some (Running v) → v.epoch ≡ Some e → (p : Pull) → Among p v.pulls → is_ready v p ≡ true → fits_own p (copy_of v.store p.file) ≡ true →
        (groups : List ℕ) → HasGroups c s groups → CanKeep groups v.store p }
{}

/// What a packet in the epoch of its site asks there may be taken with just what a mend works on there: its contents are no longer than files
/// may be. That an inode which several of them have has one kind is premised.
pub fn mends_join_what_fits()
    ensures { (c : Config) (lines : List ScheduleLine) → LinesFit c lines → PacksAreOfSites c → length c.packs ≤ 4 → (x : Numbered) → WasSent (run_in c lines) x → (v : SiteView) (e : InEpoch) → place_at (run_in c lines) x.packet.to ≡ Some (Running v) → v.epoch ≡ Some e → x.packet.epoch ≡ e.id →
        (groups : List ℕ) → HasGroups c x.packet.to groups → KindsIfMend v x.packet.from x.packet.body → CanTakeAtStore (frame_in c x.packet.to v.boot e) (λ inst. mending v (group_of (instance_of v.store inst))) v.tables groups x.packet.to x.packet.from x.packet.body v.store }
{}

/// Wherever all that was told came as it may, an inode that several of the contents have has one kind in each mend that a site in its epoch
/// works on: each entry names a file that stands, of its kind.
pub fn mends_agree_on_kinds()
    ensures { (c : Config) (trace : List Line) → PacksAreOfSites c → IsFollowed c trace → (f : Frame) (v : SiteView) → InsideFact c f trace v → (from : ℕ) (b : Body) → KindsIfMend v from b }
{}

/// So after every schedule whatever a packet in the epoch of its site asks there may be taken, of a mend too.
pub fn nothing_asked_is_unfit()
    ensures { (c : Config) (lines : List ScheduleLine) → LinesFit c lines → PacksAreOfSites c → length c.packs ≤ 4 → (x : Numbered) → WasSent (run_in c lines) x → (v : SiteView) (e : InEpoch) → place_at (run_in c lines) x.packet.to ≡ Some (Running v) → v.epoch ≡ Some e → x.packet.epoch ≡ e.id →
        (groups : List ℕ) → HasGroups c x.packet.to groups → CanTakeAtStore (frame_in c x.packet.to v.boot e) (λ inst. mending v (group_of (instance_of v.store inst))) v.tables groups x.packet.to x.packet.from x.packet.body v.store }
{}

/// After every schedule each entry of each version of a directory, and of what an open instance of a directory works on, was inserted in its
/// group and names a file there that stands, of the entry's kind. (A message that was being made when its storage site left the epoch is no
/// directory, whatever has its number since.)
pub fn every_run_names_files()
    ensures versions { (c : Config) (lines : List ScheduleLine) → LinesFit c lines → PacksAreOfSites c → length c.packs ≤ 4 → (f : FileId) (stamp : Stamp) → kind_of_file c (entries (run_in c lines).trace) f ≡ Dir → EntriesName c (run_in c lines).trace f.group (content_of (history c (entries (run_in c lines).trace)) f stamp) }
    ensures instances { (c : Config) (lines : List ScheduleLine) → LinesFit c lines → PacksAreOfSites c → length c.packs ≤ 4 → (e : EpochId) (i : Serial) (x : Instance) → instance_now c (run_in c lines).trace e i ≡ Some x → kind_of_file c (entries (run_in c lines).trace) x.grant.file ≡ Dir → EntriesName c (run_in c lines).trace x.grant.file.group x.work.content ⊎ IsLeftMessage (run_in c lines).trace e x.grant }
{}
