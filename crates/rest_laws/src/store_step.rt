//! What a storage site does, it does as it may: its steps from all that was told so far.
ghost use Rattle.std.specs.Prelude.{ℕ, ◌≡◌, ◌≤◌, List, [], length};
ghost use Rattle.locus_ids.specs.declared.config.Config.{Config};
ghost use Rattle.trace_book.specs.declared.operation.Op.{Op};
ghost use Rattle.schedule_lines.specs.Cluster.{config_of};
ghost use Rattle.schedule_lines.specs.declared.line.ScheduleLine.{ScheduleLine};
ghost use Rattle.wire_messages.specs.declared.body.Body.TheVariants as body;
ghost use Rattle.wire_messages.specs.declared.packet.Packet.{Packet};
ghost use Rattle.role_steps.specs.Mends.{mending};
ghost use Rattle.role_steps.specs.Operations.{on_op};
ghost use Rattle.role_steps.specs.Storage.{instance_of, on_close};
ghost use Rattle.role_steps.specs.Views.{Frame, SiteView, Store};
ghost use Rattle.role_steps.specs.declared.instances.Instance.{Instance};
ghost use Rattle.the_run.specs.Kept.{Among};
ghost use Rattle.the_run.specs.Steps.{group_of};
ghost use Rattle.the_run.specs.Worlds.{Line, formatted};
ghost use Rattle.tree_laws.specs.Doing.{FrameFact, StoreFine, StoreHeld};
ghost use Rattle.tree_laws.specs.Stores.{CopiesAreHeld};
ghost use Rattle.store_laws.specs.Rests.{MayWrite, OpRests, StoreRests};
ghost use Rattle.store_laws.specs.OneTree.Places.{InsideFact};
ghost use Rattle.store_laws.specs.OneTree.Rest.{AllRest, Past};
ghost use Rattle.store_laws.specs.OneTree.Roles.{Came, Ready};
ghost use Rattle.rest_laws.specs.StoreStepSteps.{MendsRest};

/// The cluster that schedule lines make has four groups.
pub fn clusters_have_four_groups()
    ensures { (lines : List ScheduleLine) → length (config_of lines).packs ≡ 4 }
{}

/// A freshly formatted disk holds what its site holds before anything was told: of each group of which the site has a pack the empty
/// root directory, and nothing else.
pub fn formatted_disks_are_held()
    ensures { (c : Config) → length c.packs ≤ 4 → (me : ℕ) → CopiesAreHeld c [] me (record { copies = formatted c me; instances = []; steps = [] }) }
{}

/// What the steps of a storage site rest on is so wherever all that was told came as it may: who is in an epoch and who calls are of the
/// sixteen sites, files have numbers of 16 bits, open instances stand on what their sites have, and operations are done in their order,
/// of who asks them.
pub fn storage_sites_rest_on_the_past()
    ensures stores { (c : Config) (trace : List Line) → Past c trace → StoreRests c trace }
    ensures operations { (c : Config) (trace : List Line) → Past c trace → OpRests c trace }
{}

/// An instance of a storage site that owes a version isn't open only to be read, and the counter of its site can rise: who asks a change
/// of an instance has opened it, or its descriptor, not only to read.
pub fn what_is_owed_may_be_written()
    ensures { (c : Config) (trace : List Line) → Past c trace → (f : Frame) → FrameFact c trace f → (s : Store) → StoreHeld c f trace s → (i : Instance) → Among i s.instances → MayWrite f i }
{}

/// Each close that comes to its storage site is a step that it does as it may, whatever was told before: what is owed is committed first.
pub fn closes_are_steps()
    ensures { (c : Config) (n : ℕ) (trace : List Line) (f : Frame) (p : Packet) (serial : ℕ) (s : Store) → Ready c trace f → StoreHeld c f trace s → Came c trace f p (body.Close serial) → AllRest c n trace (on_close f (record { us = p.from; serial = serial }) s).told → StoreFine c n trace f s (on_close f (record { us = p.from; serial = serial }) s) }
{}

/// Each operation that comes to its storage site is a step that it does as it may, whatever was told before, where a mend that is asked
/// works on what is kept.
pub fn operations_are_steps()
    ensures { (c : Config) → MendsRest c → (n : ℕ) (trace : List Line) (f : Frame) (p : Packet) (serial k : ℕ) (o : Op) (seen : List ℕ) (v : SiteView) → Ready c trace f → InsideFact c f trace v → Came c trace f p (body.Op serial k o seen) →
        AllRest c n trace (on_op f (mending v (group_of (instance_of v.store (record { us = p.from; serial = serial })))) (record { us = p.from; serial = serial }) k o seen v.store).told → StoreFine c n trace f v.store (on_op f (mending v (group_of (instance_of v.store (record { us = p.from; serial = serial })))) (record { us = p.from; serial = serial }) k o seen v.store) }
{}
