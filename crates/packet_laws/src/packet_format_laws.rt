ghost use Rattle.std.specs.Prelude.{ℕ, ◌≡◌, ◌≤◌, List, length, Some};
ghost use Rattle.locus_ids.specs.declared.config.Config.{Config};
ghost use Rattle.schedule_lines.specs.declared.line.ScheduleLine.{ScheduleLine};
ghost use Rattle.role_steps.specs.Own.{Every};
ghost use Rattle.role_steps.specs.Views.{Event, SiteView};
ghost use Rattle.the_run.specs.Runs.{run_in};
ghost use Rattle.the_run.specs.Steps.{step};
ghost use Rattle.the_run.specs.Worlds.{Running, links_of, place_at};
ghost use Rattle.rest_laws.specs.of_run_laws.Naming.{MayCome};
ghost use Rattle.rest_laws.specs.of_row_laws.Voids.{LinesFit};
ghost use Rattle.rest_laws.specs.of_tree_laws.Orders.Joining.{PacksAreOfSites};
ghost use Rattle.rest_laws.specs.of_store_laws.OneTree.Roles.{EventFact};
ghost use Rattle.packet_order.specs.Counts.{FitsIfCounted};

/// After every schedule each packet that the next event of a running site sends is of the format, of each kind, and to a site and a boot
/// of the format, where its counts have numbers of their sizes: those of calls, requests, takes, opens and operations. The event is a
/// call that a line may ask, a packet that was sent, a tick, or one by which epochs are formed.
pub fn next_packets_fit()
    ensures { (c : Config) (lines : List ScheduleLine) → LinesFit c lines → PacksAreOfSites c → length c.packs ≤ 4 → (s : ℕ) (v : SiteView) (e : Event) → place_at (run_in c lines) s ≡ Some (Running v) → MayCome (run_in c lines) e → EventFact c (run_in c lines).trace s v e →
        Every FitsIfCounted (step c s (links_of (run_in c lines) s) v e).sent }
{}
