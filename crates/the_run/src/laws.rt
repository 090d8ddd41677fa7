ghost use Rattle.std.specs.Prelude.{◌≡◌, ℕ, List, ◌++◌};
ghost use Rattle.locus_ids.specs.declared.config.Config.{Config};
ghost use Rattle.disk_calls.specs.of_schedule_lines.declared.line.ScheduleLine.{ScheduleLine};
ghost use Rattle.locus_ids.specs.declared.sites.Links.{Links};
ghost use Rattle.role_steps.specs.Views.{Event, SiteView, Outcome};
ghost use Rattle.role_steps.specs.Own.{Sends};
ghost use Rattle.the_run.specs.Steps.{step};
ghost use Rattle.the_run.specs.Worlds.{World, acts};
ghost use Rattle.the_run.specs.Runs.{run_in};
ghost use Rattle.the_run.specs.Laws.{Grows, TouchesOnly, BootsRise, EachOfABoot, SendsAs};
ghost use Rattle.the_run.specs.Joins.{EpochsAreJoined, OneList, PromisesRise};

/// Packets and records that a schedule has so far stay as they are, whatever lines come after, and numbers only rise.
pub fn worlds_grow()
    ensures { (c : Config) (lines more : List ScheduleLine) → Grows (run_in c lines) (run_in c (lines ++ more)) }
{}

/// An event of a site leaves all other sites as they are, also where it stops its own.
pub fn events_touch_one_site()
    ensures { (n s : ℕ) (v : SiteView) (o : Outcome SiteView) (w : World) → TouchesOnly s w (acts n s v o w) }
{}

/// A step of a site keeps its boot number, and each packet that it sends is from this site and this boot.
pub fn steps_send_their_own()
    ensures { (c : Config) (me : ℕ) (links : Links) (v : SiteView) (e : Event) → Sends me v.boot (step c me links v e) }
{}

/// Whatever lines come after, no site's boot number is lower then.
pub fn boot_numbers_rise()
    ensures { (c : Config) (lines more : List ScheduleLine) → BootsRise (run_in c lines) (run_in c (lines ++ more)) }
{}

/// After every schedule each packet that was sent names a boot that its sender has had: at most its last one.
pub fn packets_are_of_a_boot()
    ensures { (c : Config) (lines : List ScheduleLine) → EachOfABoot (run_in c lines) }
{}

/// Each packet that a step adds to the world names the site and the boot number that it has then.
pub fn packets_name_their_boot()
    ensures { (c : Config) (n s : ℕ) (links : Links) (v : SiteView) (e : Event) (w : World) → SendsAs s v.boot w (acts n s v (step c s links v e) w) }
{}

/// After every schedule all joins of one epoch id have one list of members, whichever sites joined it.
pub fn joins_have_one_list()
    ensures { (c : Config) (lines : List ScheduleLine) → OneList (run_in c lines).trace }
{}

/// Whatever lines come after, a site that still runs in the same boot has promised no lower id then.
pub fn promised_ids_rise()
    ensures { (c : Config) (lines more : List ScheduleLine) → PromisesRise (run_in c lines) (run_in c (lines ++ more)) }
{}

/// After every schedule a site that is in an epoch has promised its id last, and the site that began that epoch has joined it
/// with the same members.
pub fn epochs_are_joined()
    ensures { (c : Config) (lines : List ScheduleLine) → EpochsAreJoined (run_in c lines) }
{}
