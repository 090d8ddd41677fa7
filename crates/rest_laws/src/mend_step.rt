//! How mends start and what they work on, in the one tree: the synchronization site of a group starts a mend as it may, and works on
//! what the tree has kept.
ghost use Rattle.std.specs.Prelude.{ℕ, ◌≡◌, ◌+◌, ◌≤◌, true, false, List, length, Option, Some};
ghost use Rattle.locus_ids.specs.declared.config.Config.{Config};
ghost use Rattle.locus_ids.specs.declared.ids.CallId.{CallId};
ghost use Rattle.locus_ids.specs.declared.ids.EpochId.{EpochId};
ghost use Rattle.locus_ids.specs.declared.ids.FileId.{FileId};
ghost use Rattle.locus_ids.specs.declared.ids.Mode.TheVariants as mode;
ghost use Rattle.locus_ids.specs.declared.ids.Serial.{Serial};
ghost use Rattle.locus_ids.specs.declared.ids.Stamp.{Stamp};
ghost use Rattle.locus_ids.specs.Sizes.{sites_max};
ghost use Rattle.schedule_lines.specs.declared.line.ScheduleLine.{ScheduleLine};
ghost use Rattle.trace_book.specs.declared.operation.Op.TheVariants as op;
ghost use Rattle.call_rules.specs.declared.want.Want.TheVariants as want;
ghost use Rattle.role_steps.specs.Storage.{instance_of};
ghost use Rattle.role_steps.specs.declared.instances.Instance.{Instance};
ghost use Rattle.role_steps.specs.Mends.{has_mend_in, mending, starts_mends, row_file, wants_mend};
ghost use Rattle.role_steps.specs.Mends as role;
ghost use Rattle.role_steps.specs.Tables.{first_that};
ghost use Rattle.role_steps.specs.Using.{own_call};
ghost use Rattle.role_steps.specs.Views.{Frame, SiteView};
ghost use Rattle.role_steps.specs.declared.synchronizing.FileRow.{FileRow};
ghost use Rattle.role_steps.specs.declared.synchronizing.SyncTable.{SyncTable};
ghost use Rattle.the_run.specs.Kept.{Among};
ghost use Rattle.the_run.specs.Steps.{group_of};
ghost use Rattle.the_run.specs.Worlds.{Line};
ghost use Rattle.lawful_trace.specs.CallRows.{MayMend};
ghost use Rattle.lawful_trace.specs.TreeRows.{IsCallIn};
ghost use Rattle.tree_laws.specs.Calls.{Asks};
ghost use Rattle.tree_model.specs.Epochs.{members_of};
ghost use Rattle.tree_model.specs.Folds.{Trace};
ghost use Rattle.tree_model.specs.Histories.{history};
ghost use Rattle.tree_model.specs.Mending.{kept_vectors};
ghost use Rattle.tree_model.specs.Packs.{sync_site};
ghost use Rattle.tree_model.specs.Tree.{tree_of};
ghost use Rattle.store_laws.specs.of_row_laws.Shown.{EachRecord};
ghost use Rattle.store_laws.specs.of_row_laws.CallRows.Tree.{IsTreeRow};
ghost use Rattle.tree_laws.specs.Following.{IsFollowed, RowsAreLawful};
ghost use Rattle.tree_laws.specs.Past.{WasGranted};
ghost use Rattle.tree_laws.specs.Instances.{Stands};
ghost use Rattle.tree_laws.specs.Printed.{entries};
ghost use Rattle.tree_laws.specs.Tables.{TableFact};
ghost use Rattle.store_laws.specs.Rests.{MendsAs};
ghost use Rattle.store_laws.specs.OneTree.Places.{InsideFact};
ghost use Rattle.store_laws.specs.OneTree.Rest.{AllRest, Past};
ghost use Rattle.store_laws.specs.OneTree.Roles.{Ready};
ghost use Rattle.tree_laws.specs.Doing.{Fine, IsOfUsers, NoWrite};
ghost use Rattle.store_laws.specs.OneTree.UserStepRests.{UserRests};
ghost use Rattle.rest_laws.specs.MendStepCounting.{IsCountedRow};

/// Once a group has started, the vectors of the kept versions of all its files are the same in the table of its synchronization site
/// as in the tree, and stand in the same order.
pub fn kept_vectors_agree()
    ensures { (c : Config) (trace : List Line) (f : Frame) (t : SyncTable) → TableFact c trace f t → t.started ≡ true → role.kept_vectors t ≡ kept_vectors (history c (entries trace)) (tree_of c f.epoch t.group (entries trace)) }
{}

/// Where each record comes as the lawful trace has it, no file that stands or is open has number 0.
pub fn files_are_numbered()
    ensures { (c : Config) (trace : List Line) → IsFollowed c trace → (f : FileId) (stamp : Stamp) → Stands c trace f stamp → f.ino ≡ 0 → ⊥ }
{}

/// A mend that a site starts may be accepted: of a directory of a group that the site synchronizes, which has started; which nobody has open and whose mend wasn't
/// refused for good in the epoch; where no other mend of the group waits; and which is to be mended, since several versions of it are
/// kept, or since a file of it wants to live again.
pub fn mends_are_wanted()
    ensures { (c : Config) (trace : List Line) (f : Frame) (v : SiteView) → Past c trace → InsideFact c f trace v → (t : SyncTable) → Among t v.tables → t.started ≡ true → has_mend_in v.users t.group ≡ false →
        (r : FileRow) → first_that (wants_mend v t) t.files ≡ Some r → MayMend c (entries trace) f.me 0 (own_call f.me f.boot (v.users.calls + 1)) (row_file t r) }
{}

/// The mends that are wanted start, one a group, with the groups ascending: each is accepted as it may be and asks its open, and all that
/// the site has then is so by the trace. (What other laws give of requests and replies is premised of every trace that came as it may.)
pub fn mends_start_as_they_may()
    ensures { (c : Config) → UserRests c → (n : ℕ) (trace : List Line) (f : Frame) (v : SiteView) → Ready c trace f → InsideFact c f trace v → AllRest c n trace (starts_mends f v).told → Fine SiteView c n trace (IsOfUsers f.me) (InsideFact c f) NoWrite (starts_mends f v) }
{}

/// A mend is granted at the synchronization site of its group among the members of its epoch.
pub fn mends_are_granted_at_their_site()
    ensures { (c : Config) (trace : List Line) (e : EpochId) (d : CallId) (request : ℕ) (i : Serial) (f : FileId) (stamp : Option Stamp) (ss : ℕ) → IsFollowed c trace → WasGranted trace e d request i mode.Mend f stamp ss → sync_site c f.group (members_of (entries trace) e) ≡ Some ss }
{}

/// Where each record of a trace comes as the lawful trace has it, and each cut is counted, each record meets what the tree asks of it:
/// an accepted mend too, which is one that its directory wants.
pub fn lawful_rows_meet_the_tree()
    ensures { (c : Config) (lines : List ScheduleLine) (trace : Trace) → RowsAreLawful c trace → EachRecord (IsCountedRow c lines) trace → EachRecord (IsTreeRow c lines) trace }
{}

/// At the storage site of an instance of which a call asks to mend, the mend works on what the tree has kept: on the contents of the kept
/// versions of the directory, in their order, and on the vectors of all that is kept in the group. (A cluster has at most four groups.)
pub fn mends_work_on_what_is_kept()
    ensures { (c : Config) (trace : List Line) (f : Frame) (v : SiteView) → Past c trace → InsideFact c f trace v → length c.packs ≤ 4 → (inst : Serial) → inst.us ≤ sites_max → (i : Instance) → instance_of v.store inst ≡ Some i →
        (d : CallId) → IsCallIn (entries trace) f.epoch d → Asks c trace d (want.Do inst op.Mend) → MendsAs c trace f i.file (mending v (group_of (instance_of v.store inst))) }
{}
