//! Laws of processes in the one tree: what a call asks something of is open, and asked by one call at a time.
ghost use Rattle.std.specs.Prelude.{ℕ, ◌≡◌, ◌⊎◌, true, List, length, Option, Some};
ghost use Rattle.locus_ids.specs.declared.config.Config.{Config};
ghost use Rattle.locus_ids.specs.declared.ids.CallId.{CallId};
ghost use Rattle.locus_ids.specs.declared.ids.EpochId.{EpochId};
ghost use Rattle.locus_ids.specs.declared.ids.FileId.{FileId};
ghost use Rattle.locus_ids.specs.declared.ids.Mode.{Mode};
ghost use Rattle.locus_ids.specs.declared.ids.Mode.TheVariants as mode;
ghost use Rattle.locus_ids.specs.declared.ids.Serial.{Serial};
ghost use Rattle.locus_ids.specs.declared.ids.Stamp.{Stamp};
ghost use Rattle.locus_ids.specs.declared.refusal.Refusal.{Refusal};
ghost use Rattle.locus_ids.specs.declared.sites.Members.{Members};
ghost use Rattle.trace_book.specs.declared.descriptor.Descriptor.{Descriptor};
ghost use Rattle.role_steps.specs.Views as role;
ghost use Rattle.tree_model.specs.Packs as tree;
ghost use Rattle.trace_book.specs.declared.operation.Op.{Op};
ghost use Rattle.call_rules.specs.declared.want.Want.TheVariants as want;
ghost use Rattle.the_run.specs.Worlds.{Line};
ghost use Rattle.tree_model.specs.declared.instance.Instance.{Instance};
ghost use Rattle.tree_model.specs.Calls.{granted_to};
ghost use Rattle.tree_model.specs.Epochs.{boot_of, epoch_of};
ghost use Rattle.tree_model.specs.State.{has_number};
ghost use Rattle.lawful_trace.specs.Progress.{granted_answer};
ghost use Rattle.lawful_trace.specs.Tables.{call_of_act, call_of_release, descriptor, uses_of};
ghost use Rattle.lawful_trace.specs.TreeRows.{IsCallIn};
ghost use Rattle.call_rules.specs.declared.answer.Answer.{Answer};
ghost use Rattle.call_rules.specs.declared.answer.Answer.TheVariants as answer;
ghost use Rattle.tree_laws.specs.Calls.{Asks, Waits, request_number, tries};
ghost use Rattle.tree_laws.specs.Following.{IsFollowed};
ghost use Rattle.tree_laws.specs.Instances.{instance_now};
ghost use Rattle.tree_laws.specs.Past.{WasGranted, WasRefused, WasReleased};
ghost use Rattle.tree_laws.specs.Printed.{entries};
ghost use Rattle.tree_laws.specs.Users.{had};
ghost use Rattle.tree_laws.specs.Orders.ProcessAnswered.{WasAnswered};
ghost use Rattle.tree_laws.specs.Orders.ProcessAsked.{AsksOf, IsOpenOf};
ghost use Rattle.tree_laws.specs.Orders.ProcessOperations.{OpsAre};

/// Where each told line comes as it may, an instance of which a call asks an operation, or its close, was granted in the
/// call's epoch to a call of its site, and is open; and what a descriptor stands for wasn't released.
pub fn what_is_asked_is_open()
    ensures asked { (c : Config) (trace : List Line) (e : EpochId) (d : CallId) (i : Serial) → IsFollowed c trace → IsCallIn (entries trace) e d → AsksOf c trace d i → IsOpenOf c trace e i d.site }
    ensures described { (c : Config) (trace : List Line) (s process fd : ℕ) (x : Descriptor) → IsFollowed c trace → descriptor (entries trace) s process fd ≡ Some x → WasReleased trace x.epoch x.inst → ⊥ }
{}

/// Where each told line comes as it may, a call that asks an operation of an instance is the one that the records say its next
/// operation is a step of: the operation of any number where no descriptor has named the instance, else that of the number of
/// its uses. And a call that asks to close an instance is the one that its release is a step of.
pub fn askers_own_their_steps()
    ensures acts { (c : Config) (trace : List Line) (e : EpochId) (d : CallId) (i : Serial) (o : Op) → IsFollowed c trace → IsCallIn (entries trace) e d → Asks c trace d (want.Do i o) →
        ((n : ℕ) → call_of_act (entries trace) e i n ≡ Some d) ⊎ (call_of_act (entries trace) e i (length (uses_of (entries trace) e i)) ≡ Some d) }
    ensures releases { (c : Config) (trace : List Line) (e : EpochId) (d : CallId) (i : Serial) → IsFollowed c trace → IsCallIn (entries trace) e d → Asks c trace d (want.Close i) → call_of_release (entries trace) e i ≡ Some d }
{}

/// Where each told line comes as it may, an answer waits for its call as long as the request that it answers is the call's
/// current one: a step that stands, of what the call asks still, is what it takes next.
pub fn answers_wait_for_their_calls()
    ensures { (c : Config) (trace : List Line) (d : CallId) (request times : ℕ) (a : Answer) → IsFollowed c trace → WasAnswered c trace d request times a → request ≡ request_number trace d → times ≡ tries trace d → Waits c trace d a }
{}

/// Where each told line comes as it may, an instance of which a call asks an operation, or its close, is among those that its
/// site's calls have taken and not closed, while the site is in the call's epoch; and so is what a descriptor of that epoch
/// stands for.
pub fn what_is_asked_is_had()
    ensures asked { (c : Config) (trace : List Line) (e : EpochId) (d : CallId) (i : Serial) → IsFollowed c trace → IsCallIn (entries trace) e d → epoch_of (entries trace) d.site ≡ Some e → AsksOf c trace d i → has_number (had c trace d.site) i.serial ≡ true }
    ensures described { (c : Config) (trace : List Line) (s process fd : ℕ) (x : Descriptor) → IsFollowed c trace → descriptor (entries trace) s process fd ≡ Some x → epoch_of (entries trace) s ≡ Some x.epoch → has_number (had c trace s) x.inst.serial ≡ true }
{}

/// Where each told line comes as it may, what a site has asked of an open instance of its boot is what was done on it, and
/// nobody asks an operation of it; or it is one more, which a call of the epoch asks still.
pub fn operations_are_counted()
    ensures { (c : Config) (trace : List Line) (e : EpochId) (i : Serial) (g : CallId) (at : Instance) → IsFollowed c trace → granted_to (entries trace) e i ≡ Some g → g.boot ≡ boot_of (entries trace) g.site → (WasReleased trace e i → ⊥) →
        instance_now c trace e i ≡ Some at → OpsAre c trace e i at }
{}

/// Where each told line comes as it may, an open that was granted or refused at the request that is its call's current one has
/// its answer waiting: what the grant tells, but for a mend's, which tells what was kept then too, or the refusal.
pub fn answered_opens_wait()
    ensures granted { (c : Config) (trace : List Line) (e : EpochId) (d : CallId) (request : ℕ) (i : Serial) (m : Mode) (f : FileId) (stamp : Option Stamp) (ss : ℕ) (kept : List Stamp) → IsFollowed c trace → (m ≡ mode.Mend → ⊥) →
        WasGranted trace e d request i m f stamp ss → request_number trace d ≡ request → Waits c trace d (granted_answer m i f stamp kept) }
    ensures refused { (c : Config) (trace : List Line) (e : EpochId) (d : CallId) (request : ℕ) (i : Serial) (m : Mode) (why : Refusal) → IsFollowed c trace →
        WasRefused trace e d request i m why → request_number trace d ≡ request → Waits c trace d (answer.Refused why) }
{}

/// The site that a role takes for the synchronization site of a group among the members of its epoch is the one of the lawful
/// trace: the least member that has a pack of the group.
pub fn sync_sites_agree()
    ensures { (c : Config) (m : Members) (group : ℕ) → role.sync_site c m group ≡ tree.sync_site c group (Some m) }
{}
