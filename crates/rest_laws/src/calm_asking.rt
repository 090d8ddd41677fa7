//! Laws of operations that calls ask: each can be done.
ghost use Rattle.std.specs.Prelude.{ℕ, ◌≡◌, List, Some};
ghost use Rattle.locus_ids.specs.declared.config.Config.{Config};
ghost use Rattle.locus_ids.specs.declared.ids.CallId.{CallId};
ghost use Rattle.locus_ids.specs.declared.ids.EpochId.{EpochId};
ghost use Rattle.locus_ids.specs.declared.ids.Kind.{Kind};
ghost use Rattle.locus_ids.specs.declared.ids.Serial.{Serial};
ghost use Rattle.trace_book.specs.declared.operation.Op.{Op};
ghost use Rattle.trace_book.specs.declared.operation.Op.TheVariants as op;
ghost use Rattle.call_rules.specs.declared.want.Want.TheVariants as want;
ghost use Rattle.the_run.specs.Worlds.{Line};
ghost use Rattle.tree_model.specs.declared.instance.Instance.{Instance};
ghost use Rattle.lawful_trace.specs.TreeRows.{IsCallIn};
ghost use Rattle.tree_laws.specs.Calls.{Asks};
ghost use Rattle.tree_laws.specs.Following.{IsFollowed};
ghost use Rattle.tree_laws.specs.Instances.{instance_now};
ghost use Rattle.tree_laws.specs.Packets.{OpsNow};
ghost use Rattle.tree_laws.specs.Printed.{entries};
ghost use Rattle.tree_laws.specs.Orders.Joining.{PacksAreOfSites};
ghost use Rattle.store_laws.specs.OneTree.Rest.{Past};
ghost use Rattle.rest_laws.specs.Fits.EntryEntries.{WasInserted};
ghost use Rattle.rest_laws.specs.Fits.CalmAskingAsked.{IsDoable};

/// Wherever all that was told came as it may, what a call asks of an open instance as its next operation can be done there: an operation on
/// its content has an effect, and a commit that owes nothing has a version to answer.
pub fn asked_operations_can_be_done()
    ensures { (c : Config) (trace : List Line) → Past c trace → (e : EpochId) (ss : ℕ) (i : Serial) (n : ℕ) (o : Op) (seen : List ℕ) (asked : OpsNow c trace e ss i n o seen) → IsDoable o seen asked.at.work }
{}

/// Wherever each told line comes as it may, the number of the entry that a call inserts in a directory was inserted by nobody before, in
/// whichever directory of the group.
pub fn inserted_numbers_are_new()
    ensures { (c : Config) → PacksAreOfSites c → (trace : List Line) → IsFollowed c trace → (e : EpochId) (d : CallId) → IsCallIn (entries trace) e d → (i : Serial) (name : List ℕ) (ino : ℕ) (kind : Kind) →
        Asks c trace d (want.Do i (op.Insert name ino kind)) → (x : Instance) → instance_now c trace e i ≡ Some x → WasInserted c trace x.grant.file.group ino → ⊥ }
{}
