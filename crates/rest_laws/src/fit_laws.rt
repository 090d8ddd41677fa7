//! What every run asks of disks, tables and packets has room and is in range: none of the causes for which a role refuses a value as
//! unfit comes in any run.
ghost use Rattle.std.specs.Prelude.{ℕ, ◌≡◌, ◌≤◌, List, length, Some};
ghost use Rattle.locus_ids.specs.declared.config.Config.{Config};
ghost use Rattle.locus_ids.specs.declared.ids.FileId.{FileId};
ghost use Rattle.locus_ids.specs.declared.ids.Stamp.{Stamp};
ghost use Rattle.locus_ids.specs.declared.sites.Links.{Links};
ghost use Rattle.schedule_lines.specs.declared.line.ScheduleLine.{ScheduleLine};
ghost use Rattle.role_steps.specs.Own.{Every};
ghost use Rattle.role_steps.specs.Epochs.{frame_in};
ghost use Rattle.role_steps.specs.Views.{Event, Frame, SiteView, Store};
ghost use Rattle.role_steps.specs.declared.rounds.InEpoch.{InEpoch};
ghost use Rattle.the_run.specs.Runs.{run_in};
ghost use Rattle.the_run.specs.Kept.{WasSent};
ghost use Rattle.the_run.specs.Steps.{step};
ghost use Rattle.the_run.specs.Worlds.{Line, Numbered, Running, place_at};
ghost use Rattle.store_laws.specs.of_row_laws.Voids.{LinesFit};
ghost use Rattle.tree_laws.specs.Orders.Joining.{PacksAreOfSites};
ghost use Rattle.tree_model.specs.Files.{version_of};
ghost use Rattle.tree_laws.specs.Doing.{FrameFact, StoreHeld};
ghost use Rattle.tree_laws.specs.Instances.{Stands};
ghost use Rattle.tree_laws.specs.Printed.{entries};
ghost use Rattle.store_laws.specs.OneTree.Places.{SiteFact};
ghost use Rattle.store_laws.specs.OneTree.Rest.{Past};
ghost use Rattle.store_laws.specs.OneTree.Roles.{EventFact};
ghost use Rattle.rest_laws.specs.Fits.Inodes.{AreInodes, IsInodeNumber};
ghost use Rattle.rest_laws.specs.Fits.Opens.{OpensForSite};
ghost use Rattle.rest_laws.specs.Fits.Pulling.{FitsPull, NoticeFits};
ghost use Rattle.rest_laws.specs.Fits.Room.{RoomFits};
ghost use Rattle.rest_laws.specs.Fits.Storing.{AreStorable};
ghost use Rattle.rest_laws.specs.Fits.Versions.{FitsSlot};

/// After every schedule each file that stands has the number of an inode: a root 1, any other one of the 64 numbers of one of the sixteen
/// sites.
pub fn files_have_inodes()
    ensures { (c : Config) (lines : List ScheduleLine) → LinesFit c lines → PacksAreOfSites c → (f : FileId) (stamp : Stamp) → Stands c (run_in c lines).trace f stamp → IsInodeNumber f.ino }
{}

/// After every schedule the numbers in each table of each running site are those of inodes.
pub fn tables_are_of_inodes()
    ensures { (c : Config) (lines : List ScheduleLine) → LinesFit c lines → PacksAreOfSites c → length c.packs ≤ 4 → (s : ℕ) (v : SiteView) → place_at (run_in c lines) s ≡ Some (Running v) → Every AreInodes v.tables }
{}

/// After every schedule each packet that asks a storage site to open an instance asks it for one of the sixteen sites.
pub fn opens_are_of_sites()
    ensures { (c : Config) (lines : List ScheduleLine) → LinesFit c lines → PacksAreOfSites c → length c.packs ≤ 4 → (x : Numbered) → WasSent (run_in c lines) x → OpensForSite x.packet.body }
{}

/// After every schedule each version that stands may stand in a slot of a pack: its number is an inode's, its set of sites isn't empty, its
/// content is no longer than a file may be, and its stamp and vector have 32 bits and agree.
pub fn versions_fit_slots()
    ensures { (c : Config) (lines : List ScheduleLine) → LinesFit c lines → PacksAreOfSites c → length c.packs ≤ 4 → (f : FileId) (stamp : Stamp) → Stands c (run_in c lines).trace f stamp → FitsSlot f (version_of c (entries (run_in c lines).trace) f stamp) }
{}

/// After every schedule each instance that runs at a running site may be stored as its next version: the site has a pack of its group, its
/// number, set, stamp and vector may stand in a slot, its content is no longer than a file may be, the changed pages are pages of it, each
/// once, and have room in the pack, and each other page is that of the site's copy.
pub fn what_runs_may_be_stored()
    ensures { (c : Config) (lines : List ScheduleLine) → LinesFit c lines → PacksAreOfSites c → length c.packs ≤ 4 → (s : ℕ) (v : SiteView) (e : InEpoch) → place_at (run_in c lines) s ≡ Some (Running v) → v.epoch ≡ Some e → AreStorable c (frame_in c s v.boot e) v.store }
{}

/// After every schedule, in each group the copies of a running site and the changed pages of its open instances take no more pages than a
/// pack has.
pub fn packs_have_room()
    ensures { (c : Config) (lines : List ScheduleLine) → LinesFit c lines → PacksAreOfSites c → length c.packs ≤ 4 → (s : ℕ) (v : SiteView) → place_at (run_in c lines) s ≡ Some (Running v) → RoomFits v.store }
{}

/// After every schedule, what a running site pulls may be adopted there once it is complete and fits the site's own copy: the site has a pack
/// of its group, its version may stand in a slot, and of each page that isn't pulled the own copy has the bytes. (A pull is adopted where its pages have room beside those that open instances have changed.)
pub fn what_is_pulled_may_be_adopted()
    ensures { (c : Config) (lines : List ScheduleLine) → LinesFit c lines → PacksAreOfSites c → length c.packs ≤ 4 → (s : ℕ) (v : SiteView) (e : InEpoch) → place_at (run_in c lines) s ≡ Some (Running v) → v.epoch ≡ Some e → Every (FitsPull c s v.store) v.pulls }
{}

/// After every schedule each notice is of a version that may stand in a slot, no longer than a file may be, and goes to a site that has a pack
/// of its group.
pub fn notices_are_of_versions()
    ensures { (c : Config) (lines : List ScheduleLine) → LinesFit c lines → PacksAreOfSites c → length c.packs ≤ 4 → (x : Numbered) → WasSent (run_in c lines) x → NoticeFits c x.packet.to x.packet.body }
{}

/// Whatever comes next, as it may, at a site that is as it may be, and whether or not a limit is passed then: where its packs have room they have room
/// after it; and where they have, each instance that runs may be stored as its next version.
pub fn sites_keep_their_room()
    ensures room { (c : Config) → length c.packs ≤ 4 → (trace : List Line) (me : ℕ) (links : Links) (v : SiteView) (e : Event) → Past c trace → SiteFact c me trace v → EventFact c trace me v e → RoomFits v.store → RoomFits (step c me links v e).view.store }
    ensures storable { (c : Config) (trace : List Line) (f : Frame) (s : Store) → Past c trace → FrameFact c trace f → StoreHeld c f trace s → RoomFits s → AreStorable c f s }
{}
