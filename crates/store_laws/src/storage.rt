//! What a storage site's steps rest on is so in every trace whose lines come as they may, under the laws of stamps and packs: put
//! together from the laws of what sites hold and of their room.
ghost use Rattle.std.specs.Prelude.{ℕ, ◌≡◌, ◌≤◌, List};
ghost use Rattle.locus_ids.specs.declared.config.Config.{Config};
ghost use Rattle.locus_ids.specs.declared.ids.Serial.{Serial};
ghost use Rattle.trace_book.specs.declared.operation.Op.{Op};
ghost use Rattle.trace_book.specs.declared.operation.Op.TheVariants as op;
ghost use Rattle.role_steps.specs.OperationEffects.{Mending};
ghost use Rattle.role_steps.specs.Own.{Every};
ghost use Rattle.call_rules.specs.declared.want.Want.TheVariants as want;
ghost use Rattle.lawful_trace.specs.TreeRows.{IsCallIn};
ghost use Rattle.tree_laws.specs.Calls.{Asks};
ghost use Rattle.tree_laws.specs.Printed.{entries};
ghost use Rattle.locus_ids.specs.declared.ids.CallId.{CallId};
ghost use Rattle.locus_ids.specs.Sizes.{sites_max};
ghost use Rattle.role_steps.specs.Operations.{on_op};
ghost use Rattle.role_steps.specs.Storage.{instance_of};
ghost use Rattle.role_steps.specs.Views.{Frame, Store};
ghost use Rattle.role_steps.specs.declared.instances.Instance.{Instance};
ghost use Rattle.the_run.specs.Kept.{Among};
ghost use Rattle.the_run.specs.Worlds.{Line};
ghost use Rattle.tree_laws.specs.Doing.{FrameFact, StoreFine, StoreHeld};
ghost use Rattle.tree_laws.specs.Following.{IsFollowed};
ghost use Rattle.tree_laws.specs.Packets.{OpFact};
ghost use Rattle.store_laws.specs.Holdings.Below.{LawsBelow};
ghost use Rattle.store_laws.specs.Rests.{AllStays, MayWrite, MendsAs, OpRests, StoreRests, UnspentTold};
ghost use Rattle.store_laws.specs.StoragePlain.{PlainRests};

/// What the steps of a storage site rest on is so: a site in an epoch has there what it has now, the site whose number a file has holds
/// it, what was granted is begun or waits as it was granted, what was released isn't open, an open instance stands on what its site
/// has, and a file that is being made has no version but by its make.
pub fn what_storage_sites_rest_on()
    ensures { (c : Config) (trace : List Line) → IsFollowed c trace → LawsBelow c trace → PlainRests c trace → StoreRests c trace }
{}

/// An operation at its storage site comes as it may: the room of the site is the one tree's.
pub fn operations_come_in_the_trees_room()
    ensures { (c : Config) (n : ℕ) (trace : List Line) → IsFollowed c trace → LawsBelow c trace → PlainRests c trace → OpRests c trace → (f : Frame) → FrameFact c trace f → (s : Store) → StoreHeld c f trace s →
        ((i : Instance) → Among i s.instances → MayWrite f i) → (m : Mending) (inst : Serial) → inst.us ≤ sites_max → (number : ℕ) (o : Op) (seen : List ℕ) → OpFact c trace f.epoch f.me inst number o seen →
        ((i : Instance) → instance_of s inst ≡ Some i → o ≡ op.Mend → (d : CallId) → IsCallIn (entries trace) f.epoch d → Asks c trace d (want.Do inst op.Mend) → MendsAs c trace f i.file m) →
        Every UnspentTold (on_op f m inst number o seen s).told → AllStays c n trace (on_op f m inst number o seen s).told → StoreFine c n trace f s (on_op f m inst number o seen s) }
{}
