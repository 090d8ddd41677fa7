//! How a site comes into an epoch, in the one tree: it joins with nothing, and reports what its packs hold.
ghost use Rattle.std.specs.Prelude.{ℕ, ◌≡◌, true, false, List};
ghost use Rattle.locus_ids.specs.Sites.{has};
ghost use Rattle.locus_ids.specs.declared.config.Config.{Config};
ghost use Rattle.locus_ids.specs.declared.ids.EpochId.{EpochId};
ghost use Rattle.locus_ids.specs.declared.sites.Members.{Members};
ghost use Rattle.wire_messages.specs.declared.body.Body.TheVariants as body;
ghost use Rattle.wire_messages.specs.declared.body.ReportedCopy.{ReportedCopy};
ghost use Rattle.wire_messages.specs.declared.packet.Packet.{Packet};
ghost use Rattle.role_steps.specs.Epochs.{all_reports, joins};
ghost use Rattle.role_steps.specs.Own.{Every};
ghost use Rattle.role_steps.specs.Reports.{have_all_reported, on_report, starts, takes_all_early, with_report};
ghost use Rattle.role_steps.specs.Views.{Frame, SiteView};
ghost use Rattle.role_steps.specs.declared.synchronizing.Early.{Early};
ghost use Rattle.role_steps.specs.declared.synchronizing.SyncTable.{SyncTable};
ghost use Rattle.the_run.specs.Worlds.{Line};
ghost use Rattle.tree_laws.specs.Doing.{NoWrite, TableFine};
ghost use Rattle.tree_laws.specs.Packets.{PacketFact, ReportedNow};
ghost use Rattle.tree_laws.specs.Tables.{ReportedFiles, TableFact, WaitsIn, early_packet};
ghost use Rattle.store_laws.specs.OneTree.Places.{InsideFact, OutsideFact, SiteFact, SiteFine};
ghost use Rattle.store_laws.specs.OneTree.Rest.{AllRest, Past};
ghost use Rattle.store_laws.specs.OneTree.Roles.{Came, EpochsDo, Ready, TableHere};
ghost use Rattle.rest_laws.specs.EpochTreeCounting.{IsNotedRight, RowsSo};
ghost use Rattle.rest_laws.specs.EpochTreeReporting.{MayCount};
ghost use Rattle.rest_laws.specs.EpochTreeStarting.{BroughtFiles};
ghost use Rattle.rest_laws.specs.EpochTreeWaiting.{RequestsDo};

/// What a site reports of a pack are the versions that it has in the epoch, all of them and no others, whenever it reports: its
/// disk holds what its site has, and while it is in the epoch that is what it has there.
pub fn reports_tell_what_is_held()
    ensures { (c : Config) (trace : List Line) (f : Frame) (v : SiteView) → Ready c trace f → InsideFact c f trace v → Every (PacketFact c trace) (all_reports f v) }
{}

/// A site that joins an epoch does so as it may, and has there what it has to: no call waits, it has no instance, and the tables of
/// the groups that it synchronizes are new, since nothing stands of a group before all its packs have joined. What it reports is what
/// it has.
pub fn sites_join_with_nothing()
    ensures { (c : Config) (n : ℕ) (trace : List Line) (me : ℕ) (e : EpochId) (members : Members) (v : SiteView) → Past c trace → OutsideFact c me trace v → AllRest c n trace (joins c me e members v).told →
        SiteFine c n trace me (SiteFact c me) NoWrite (joins c me e members v) }
{}

/// So both steps of epochs are as the induction over a run asks for them, with no premise left.
pub fn epochs_are_joined_and_reported()
    ensures { (c : Config) → EpochsDo c }
{}

/// Once a group has started, the requests that waited for it are served one after the other, in the order in which they came, each as
/// if it came now: where opens and looks are done as they may, so are all of these together.
pub fn requests_that_waited_are_served()
    ensures { (c : Config) (n : ℕ) (trace : List Line) (f : Frame) (es : List Early) (t : SyncTable) → RequestsDo c → Ready c trace f → TableHere c trace f t → t.started ≡ true → Every (λ (x : Early). PacketFact c trace (early_packet f x)) es → Every (WaitsIn t.group) es → AllRest c n trace (takes_all_early f es t).told →
        TableFine c n trace f t.group (takes_all_early f es t) }
{}

/// A group starts once all its members have reported, as it may: all that have a pack have joined. Where what they have reported is all
/// that they brought, the start tells what the tree knows, the table is then what the tree has, and the requests that waited are served.
pub fn groups_start_when_all_have_reported()
    ensures { (c : Config) (n : ℕ) (trace : List Line) (f : Frame) (t : SyncTable) → RequestsDo c → Ready c trace f → TableHere c trace f t → t.started ≡ false → have_all_reported f t ≡ true → BroughtFiles c trace f t → Every (WaitsIn t.group) t.early → AllRest c n trace (starts f t).told →
        TableFine c n trace f t.group (starts f t) }
{}

/// A report is answered, and the first of a member counts; with the last one the group starts, and what waited is served. Where a table
/// with the report is what the reports have told, all of this is as it may be.
pub fn reports_are_counted()
    ensures { (c : Config) (n : ℕ) (trace : List Line) (f : Frame) (from : ℕ) (xs : List ReportedCopy) (t : SyncTable) → RequestsDo c → Ready c trace f → TableHere c trace f t → (t.started ≡ true → has t.reported from ≡ true) → MayCount c trace f from xs t → AllRest c n trace (on_report f from xs t).told →
        TableFine c n trace f t.group (on_report f from xs t) }
{}

/// Where a member tells what it has, the rows of the table with its report are so by the trace, as those without it: kinds, sets and
/// vectors are those of the versions, those are kept that are below no other, whoever is noted has at least what is noted, and each kept
/// version has a holder. So is the whole table, where its files are what the reports so far have told.
pub fn reported_rows_stand()
    ensures rows { (c : Config) (trace : List Line) (e : EpochId) (g from : ℕ) (xs : List ReportedCopy) (t : SyncTable) → Past c trace → Every (ReportedNow c trace e from g) xs → RowsSo c trace e g from t → RowsSo c trace e g from (with_report from xs t) }
    ensures table { (c : Config) (trace : List Line) (f : Frame) (from : ℕ) (xs : List ReportedCopy) (t : SyncTable) → Past c trace → t.started ≡ false → TableFact c trace f t → Every (IsNotedRight c trace f.epoch t.group from) t.files → Every (ReportedNow c trace f.epoch from t.group) xs → ReportedFiles c trace f (with_report from xs t) →
        TableFact c trace f (with_report from xs t) }
{}

/// A report comes as it may, whatever has come before it: it is answered; the first of a member counts, and the table is then what the
/// reports so far have told; with the last one the group starts with all that was brought and nothing else, and what waited is served.
/// Where opens and looks are done as they may, this is so of every report.
pub fn reports_come_as_they_may()
    ensures { (c : Config) → RequestsDo c → (n : ℕ) (trace : List Line) (f : Frame) (p : Packet) (group : ℕ) (copies : List ReportedCopy) (t : SyncTable) → Ready c trace f → TableHere c trace f t → Came c trace f p (body.Report group copies) → t.group ≡ group → AllRest c n trace (on_report f p.from copies t).told →
        TableFine c n trace f group (on_report f p.from copies t) }
{}
