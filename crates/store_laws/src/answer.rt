//! Laws of answers in the one tree: an answer that comes to its site waits for the call that asks for it, and who asks something of an
//! instance.
ghost use Rattle.std.specs.Prelude.{ℕ, ◌≡◌, ◌≤◌, true, List, Some};
ghost use Rattle.locus_ids.specs.declared.config.Config.{Config};
ghost use Rattle.locus_ids.specs.declared.ids.CallId.{CallId};
ghost use Rattle.locus_ids.specs.declared.ids.EpochId.{EpochId};
ghost use Rattle.locus_ids.specs.declared.ids.Serial.{Serial};
ghost use Rattle.trace_book.specs.declared.operation.Op.{Op};
ghost use Rattle.trace_book.specs.declared.operation.Op.TheVariants as op;
ghost use Rattle.trace_book.specs.declared.operation.Outcome.{Outcome};
ghost use Rattle.call_rules.specs.declared.want.Want.TheVariants as want;
ghost use Rattle.the_run.specs.Worlds.{Line};
ghost use Rattle.tree_model.specs.declared.instance.Instance.{Instance};
ghost use Rattle.tree_model.specs.Epochs.{epoch_of};
ghost use Rattle.tree_model.specs.State.{instance_in, is_granted_here};
ghost use Rattle.tree_model.specs.Tree.{tree_of};
ghost use Rattle.lawful_trace.specs.Tables.{call_of_act};
ghost use Rattle.lawful_trace.specs.TreeRows.{IsCallIn};
ghost use Rattle.tree_laws.specs.Calls.{Asks};
ghost use Rattle.tree_laws.specs.Following.{IsFollowed};
ghost use Rattle.tree_laws.specs.Instances.{instance_now};
ghost use Rattle.tree_laws.specs.Past.{WasDone};
ghost use Rattle.tree_laws.specs.Printed.{entries};
ghost use Rattle.tree_laws.specs.Serials.{ops_asked};
ghost use Rattle.store_laws.specs.Holdings.Below.{LawsBelow};
ghost use Rattle.store_laws.specs.Users.Rests.{ActRests, CloseRests, LooksStand, OpenRests};

/// An answer that comes to its site waits for the call that asks for it. An operation that was done under the number that a call of
/// the site's epoch asks now is what waits for that call; the end of an instance whose close is asked now waits for who asks it; and
/// the version that a look was served stands.
pub fn answers_wait_where_they_are_asked()
    ensures acts { (c : Config) (trace : List Line) → IsFollowed c trace → ActRests c trace }
    ensures closes { (c : Config) (trace : List Line) → IsFollowed c trace → CloseRests c trace }
    ensures looks { (c : Config) → LooksStand c }
{}

/// While a call asks an open, no operation was asked of the instance that it is to be; and what waits for a mend whose open was granted at
/// its current request tells the versions that are kept of its directory, under the laws of stamps and packs.
pub fn opens_wait_as_they_were_granted()
    ensures { (c : Config) (trace : List Line) → IsFollowed c trace → LawsBelow c trace → OpenRests c trace }
{}

/// Where each told line comes as it may, what is open in a tree was granted in its group, the operations that were done on it have
/// numbers up to that of its work, and who asks to remove a name of it is the call that it was granted to.
pub fn operations_are_of_who_asks()
    ensures here { (c : Config) (trace : List Line) → IsFollowed c trace → (e : EpochId) (group : ℕ) (i : Serial) (x : Instance) → instance_in (tree_of c e group (entries trace)) i ≡ Some x → is_granted_here (tree_of c e group (entries trace)) i ≡ true }
    ensures done { (c : Config) (trace : List Line) → IsFollowed c trace → (e : EpochId) (i : Serial) (number : ℕ) (o : Op) (r : Outcome) (x : Instance) → WasDone trace e i number o r → instance_now c trace e i ≡ Some x → number ≤ x.work.ops }
    ensures removers { (c : Config) (trace : List Line) → IsFollowed c trace → (e : EpochId) (i : Serial) (x : Instance) (d : CallId) (number : ℕ) (name : List ℕ) (ino : ℕ) →
        instance_now c trace e i ≡ Some x → call_of_act (entries trace) e i number ≡ Some d → Asks c trace d (want.Do i (op.Remove name ino)) → d ≡ x.grant.call }
{}

/// The operation that a call asks, numbered by what its site has asked of the instance, is a step of the call, while its site is in its
/// epoch: of an instance that a descriptor names one was asked for each use.
pub fn operations_are_numbered_by_who_asks()
    ensures { (c : Config) (trace : List Line) → IsFollowed c trace → (e : EpochId) (d : CallId) (i : Serial) (o : Op) → IsCallIn (entries trace) e d → epoch_of (entries trace) d.site ≡ Some e → Asks c trace d (want.Do i o) → call_of_act (entries trace) e i (ops_asked c trace i) ≡ Some d }
{}
