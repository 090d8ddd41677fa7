ghost use Rattle.std.specs.Prelude.{ℕ, ◌≡◌, ◌<◌, true, List, ◌∷◌, Option, Some};
ghost use Rattle.locus_ids.specs.declared.config.Config.{Config};
ghost use Rattle.role_steps.specs.Views.{Frame, Told};
ghost use Rattle.role_steps.specs.declared.synchronizing.SyncTable.{SyncTable};
ghost use Rattle.the_run.specs.Worlds.{Line};
ghost use Rattle.tree_laws.specs.Following.{MayTell, IsFollowed};
ghost use Rattle.tree_laws.specs.Tables.{TableFact};
ghost use Rattle.role_steps.specs.Looks.{LookRequest};
ghost use Rattle.role_steps.specs.Opens.{OpenRequest, on_opened, open_row};
ghost use Rattle.role_steps.specs.declared.synchronizing.OpenRow.{OpenRow};
ghost use Rattle.locus_ids.specs.declared.ids.CallId.{CallId};
ghost use Rattle.locus_ids.specs.declared.ids.EpochId.{EpochId};
ghost use Rattle.locus_ids.specs.declared.sites.Members.{Members};
ghost use Rattle.tree_model.specs.Epochs.{epoch_of, has_joined, members_of};
ghost use Rattle.tree_model.specs.Packs.{boot_in};
ghost use Rattle.lawful_trace.specs.TreeRows.{IsCallIn};
ghost use Rattle.tree_laws.specs.Printed.{entries};
ghost use Rattle.locus_ids.specs.declared.ids.FileId.{FileId};
ghost use Rattle.locus_ids.specs.declared.ids.Kind.{Kind};
ghost use Rattle.locus_ids.specs.declared.ids.Serial.{Serial};
ghost use Rattle.locus_ids.specs.declared.sites.Sites.{Sites};
ghost use Rattle.wire_messages.specs.declared.body.Opening.TheVariants as how;
ghost use Rattle.wire_messages.specs.declared.body.MadeVersion.{MadeVersion};
ghost use Rattle.wire_messages.specs.declared.body.OpenedAs.{OpenedAs};
ghost use Rattle.wire_messages.specs.declared.body.ReportedCopy.{ReportedCopy};
ghost use Rattle.locus_ids.specs.Sites.{has};
ghost use Rattle.role_steps.specs.declared.synchronizing.OpenStage.TheVariants as stage;
ghost use Rattle.role_steps.specs.Own.{Every};
ghost use Rattle.role_steps.specs.Reports.{on_closed, on_look, on_open, on_report, sync_repeats};
ghost use Rattle.tree_laws.specs.Doing.{TableFine};
ghost use Rattle.tree_laws.specs.Packets.{LookFact, OpenFact, OpenedFact, PacketFact};
ghost use Rattle.tree_laws.specs.Syncs.Opening.{IsFileMode, IsPlainOpening};
ghost use Rattle.tree_laws.specs.Syncs.Making.{MakesAreSaid};
ghost use Rattle.tree_laws.specs.Syncs.Serving.{FilesAreOrdered, Serving};
ghost use Rattle.tree_laws.specs.Syncs.Staying.{TouchesTable, FilesStay};

/// What a synchronization site has of a group, by the lines that were told, stays so when a line is told that comes as it may
/// and doesn't change its table: other sites, other groups and other epochs change nothing of what it knows, where the order of
/// versions stays and joins after the start bring nothing.
pub fn table_facts_stay()
    ensures { (c : Config) (older : List Line) (n : ℕ) (x : Told) → IsFollowed c older → MayTell c older x → FilesStay c older (record { number = n; told = x } ∷ older) x →
        (f : Frame) (t : SyncTable) → TableFact c older f t → (TouchesTable f t.group x → ⊥) → TableFact c (record { number = n; told = x } ∷ older) f t }
{}

/// A synchronization site serves looks as the one tree does: where a Look comes whose process asks it or has had it, each record
/// that the site tells is lawful and in its time, its table is then what the records make of it, and the answer that it sends,
/// or the order to a holder, is so. Before the group has started the look waits.
pub fn looks_are_served()
    ensures { (c : Config) (n : ℕ) (trace : List Line) (f : Frame) (t : SyncTable) (us : ℕ) (l : LookRequest) → Serving c n trace f t → l.file.group ≡ t.group →
        LookFact c trace f.epoch us l.call l.process l.request l.take l.file l.what → TableFine c n trace f t.group (on_look f us l t) }
{}

/// A synchronization site answers an open of a file that stands, to read or write it, to resolve a conflict or to mend a directory,
/// as the one tree does: where an Open comes whose process asks it or has had it, it is refused for the first that refuses it, busy,
/// in conflict or not there, or granted: on the only kept version at a site that has it, on what the named site has, or on what the
/// synchronization site has itself. One that comes again is answered as before. Each record that is told is lawful and in its time,
/// the table is then what the records make of it, and what is sent is so.
pub fn opens_of_files_are_answered()
    ensures { (c : Config) (n : ℕ) (trace : List Line) (f : Frame) (t : SyncTable) (us : ℕ) (o : OpenRequest) → Serving c n trace f t → FilesAreOrdered c trace f.epoch → IsPlainOpening o.how → o.file.group ≡ t.group →
        OpenFact c trace f.epoch us o.serial o.call o.process o.request o.file o.how → TableFine c n trace f t.group (on_open f us o t) }
{}

/// Whom a synchronization site notifies again at a tick it tells of the only kept version of a file, which is known in the epoch,
/// with the kind, the sites, the size and the vector that the version has.
pub fn notices_are_of_kept_versions()
    ensures { (c : Config) (trace : List Line) (f : Frame) (t : SyncTable) → TableFact c trace f t → Every (PacketFact c trace) (sync_repeats f t) }
{}

/// Where a storage site answers that it has opened an instance of a file that stood before, its user is told so, and nothing else
/// changes; a storage site never refuses what was granted, and an answer that comes again changes nothing.
pub fn opens_of_files_go_on()
    ensures { (c : Config) (n : ℕ) (trace : List Line) (f : Frame) (t : SyncTable) (from : ℕ) (inst : Serial) (a : OpenedAs) → Serving c n trace f t → inst.us < 256 →
        OpenedFact c trace f.epoch from inst a → ((r : OpenRow) → open_row t inst ≡ Some r → IsFileMode r.mode) → TableFine c n trace f t.group (on_opened f inst a t) }
{}

/// A make that comes is asked of the site that is to store its file, which is the one that the tree chooses: the call's own where it is
/// a member for which the file is, else the synchronization site where it is, else the least such member; and it is refused where
/// the file is for no member, or for a site without a pack. It opens no file before it has a number.
pub fn makes_are_asked_of_their_sites()
    ensures { (c : Config) (n : ℕ) (trace : List Line) (f : Frame) (t : SyncTable) (us serial number process request : ℕ) (file : FileId) (set : Sites) (k : Kind) → Serving c n trace f t → MakesAreSaid c trace → file.group ≡ t.group →
        OpenFact c trace f.epoch us serial number process request file (how.Make set k) →
        TableFine c n trace f t.group (on_open f us (record { serial = serial; call = number; process = process; request = request; file = file; how = how.Make set k }) t) }
{}

/// Where each told line comes as it may, a call of an epoch is of the boot of its site that the list of members of the epoch names,
/// and a site that is in an epoch has joined it.
pub fn epochs_name_boots()
    ensures calls { (c : Config) (trace : List Line) → IsFollowed c trace → (e : EpochId) (d : CallId) (m : Members) → IsCallIn (entries trace) e d → members_of (entries trace) e ≡ Some m → boot_in m d.site ≡ d.boot }
    ensures joined { (c : Config) (trace : List Line) → IsFollowed c trace → (s : ℕ) (e : EpochId) → epoch_of (entries trace) s ≡ Some e → has_joined (entries trace) s e ≡ true }
{}

/// A close that comes again of an instance that is over is answered again and tells nothing, and so is the report of a member that has
/// reported; neither changes the table. An open that was refused, or isn't granted yet, isn't closed.
pub fn what_comes_again_changes_nothing()
    ensures closes { (c : Config) (n : ℕ) (trace : List Line) (f : Frame) (t : SyncTable) → TableFact c trace f t → (ss : ℕ) (inst : Serial) (made : Option MadeVersion) →
        ((r : OpenRow) → open_row t inst ≡ Some r → r.stage ≡ stage.Granted → ⊥) → TableFine c n trace f t.group (on_closed f ss inst made t) }
    ensures reports { (c : Config) (n : ℕ) (trace : List Line) (f : Frame) (t : SyncTable) → TableFact c trace f t → (from : ℕ) (copies : List ReportedCopy) →
        has t.reported from ≡ true → TableFine c n trace f t.group (on_report f from copies t) }
{}
