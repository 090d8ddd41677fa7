//! The one tree in every run: where each role does its step as it may, whatever a run tells comes as it may, so that each printed record
//! is lawful.
ghost use Rattle.std.specs.Prelude.{ℕ, List};
ghost use Rattle.locus_ids.specs.declared.config.Config.{Config};
ghost use Rattle.locus_ids.specs.declared.sites.Links.{Links};
ghost use Rattle.schedule_lines.specs.declared.line.ScheduleLine.{ScheduleLine};
ghost use Rattle.role_steps.specs.Views.{Event, SiteView};
ghost use Rattle.the_run.specs.Runs.{run_in};
ghost use Rattle.the_run.specs.Steps.{step};
ghost use Rattle.the_run.specs.Worlds.{Line};
ghost use Rattle.row_laws.specs.Voids.{LinesFit};
ghost use Rattle.tree_laws.specs.Doing.{WriteFact};
ghost use Rattle.tree_laws.specs.Following.{IsFollowed, RowsAreLawful};
ghost use Rattle.tree_laws.specs.Printed.{entries};
ghost use Rattle.store_laws.specs.OneTree.Places.{SiteFact, SiteFine, WorldFact};
ghost use Rattle.store_laws.specs.OneTree.Rest.{AllRest, IsRest, Past};
ghost use Rattle.store_laws.specs.OneTree.Roles.{EventFact, RolesDo};

/// Where each role of a site does its step as it may, the site does the whole of an event as it may: what it tells comes as it
/// may, line after line; all that it has then is so by the trace, and each packet that it sends; and what it writes may be
/// told first of all.
pub fn sites_do_as_they_may()
    ensures { (c : Config) (n me : ℕ) (links : Links) (trace : List Line) (v : SiteView) (e : Event) → RolesDo c → Past c trace → SiteFact c me trace v → EventFact c trace me v e → AllRest c n trace (step c me links v e).told →
        SiteFine c n trace me (SiteFact c me) (WriteFact c n trace me v.store) (step c me links v e) }
{}

/// Where each role of a site does its step as it may, all that a run tells comes as it may: what each site has and what each
/// packet carries is so by the trace alone, and each printed record comes as the lawful trace of the one tree has it. The
/// lines of the schedule are in range for the cluster; stamps are new, files lie in packs, and boots, stops and joins come as
/// they may, as other laws of every run have it.
pub fn every_run_is_followed()
    ensures facts { (c : Config) (lines : List ScheduleLine) → LinesFit c lines → RolesDo c → IsRest c (run_in c lines).trace → WorldFact c (run_in c lines) }
    ensures told { (c : Config) (lines : List ScheduleLine) → LinesFit c lines → RolesDo c → IsRest c (run_in c lines).trace → IsFollowed c (run_in c lines).trace }
    ensures rows { (c : Config) (lines : List ScheduleLine) → LinesFit c lines → RolesDo c → IsRest c (run_in c lines).trace → RowsAreLawful c (entries (run_in c lines).trace) }
{}
