//! Laws of the scripts of calls: what is asked and replied by them, where each told line comes as it may.
ghost use Rattle.std.specs.Prelude.{ℕ, ◌≡◌, false, List, [], ◌∷◌, ◌++◌, Option, None, Some};
ghost use Rattle.locus_ids.specs.declared.config.Config.{Config};
ghost use Rattle.locus_ids.specs.declared.ids.CallId.{CallId};
ghost use Rattle.locus_ids.specs.declared.ids.EpochId.{EpochId};
ghost use Rattle.locus_ids.specs.declared.ids.FileId.{FileId};
ghost use Rattle.locus_ids.specs.declared.ids.Mode.TheVariants as mode;
ghost use Rattle.locus_ids.specs.declared.ids.Serial.{Serial};
ghost use Rattle.locus_ids.specs.declared.ids.Stamp.{Stamp};
ghost use Rattle.locus_ids.specs.declared.refusal.Refusal.TheVariants as refusal;
ghost use Rattle.trace_book.specs.declared.call.Call.TheVariants as call;
ghost use Rattle.trace_book.specs.declared.descriptor.Descriptor.{Descriptor};
ghost use Rattle.trace_book.specs.declared.reply.Reply.TheVariants as reply;
ghost use Rattle.trace_book.specs.declared.operation.Op.{Op};
ghost use Rattle.trace_book.specs.declared.operation.Op.TheVariants as op;
ghost use Rattle.trace_book.specs.declared.operation.Outcome.{Outcome};
ghost use Rattle.trace_book.specs.declared.operation.Served.TheVariants as served;
ghost use Rattle.trace_book.specs.declared.operation.What.TheVariants as what;
ghost use Rattle.call_rules.specs.declared.answer.Answer.TheVariants as answer;
ghost use Rattle.call_rules.specs.declared.want.Want.TheVariants as want;
ghost use Rattle.wire_messages.specs.declared.body.Opening.{Opening};
ghost use Rattle.wire_messages.specs.declared.body.Opening.TheVariants as how;
ghost use Rattle.the_run.specs.Worlds.{Line};
ghost use Rattle.tree_model.specs.declared.accepted.Waiting.{Waiting};
ghost use Rattle.tree_model.specs.declared.instance.Instance.{Instance};
ghost use Rattle.tree_model.specs.Calls.{call_named, opening_of};
ghost use Rattle.tree_model.specs.Opening.{site_named};
ghost use Rattle.tree_laws.specs.Syncs.Opening.{IsPlainOpening};
ghost use Rattle.tree_laws.specs.Calls.{log};
ghost use Rattle.tree_laws.specs.Instances.{AsksOpen, instance_now};
ghost use Rattle.tree_laws.specs.Following.{IsFollowed};
ghost use Rattle.tree_laws.specs.Past.{WasDone, WasGranted, WasLooked};
ghost use Rattle.tree_laws.specs.Printed.{entries};
ghost use Rattle.tree_laws.specs.Serials.{asked_now};
ghost use Rattle.tree_laws.specs.Users.{taken_whole};
ghost use Rattle.role_steps.specs.Using.{last_opened, mode_asked, no_serial};
ghost use Rattle.store_laws.specs.Users.Rests.{HasTaken, IsOpenedAs, IsReadAgain, gives_now};

/// Where each told line comes as it may, whole contents are looked at by mends alone, of the versions that were kept when they opened
/// their directory, one after another; and each such look was served the version that it asked.
pub fn whole_looks_are_of_mends()
    ensures whole { (c : Config) (trace : List Line) (e : EpochId) (d : CallId) (request times : ℕ) (f : FileId) (asked s : Stamp) → IsFollowed c trace → WasLooked trace e d request times f (what.Whole asked) (served.At s) → s ≡ asked }
    ensures wholes { (c : Config) (trace : List Line) (d : CallId) (caller : Waiting) (file : FileId) (stamp : Stamp) → IsFollowed c trace → call_named (entries trace) d ≡ Some caller → asked_now c trace d ≡ want.Look file (what.Whole stamp) →
        (caller.words ≡ call.Mend file) × (taken_whole (log trace d ++ answer.Brought ∷ []) ≡ taken_whole (log trace d) ++ stamp ∷ []) }
{}

/// Where each told line comes as it may, a file that a call opens has a number: no entry of a directory names number 0, and neither
/// does a mend; and a resolution is asked of the site that the words of its call name.
pub fn opens_are_as_said()
    ensures numbered { (c : Config) (trace : List Line) (e : EpochId) (d : CallId) (request serial : ℕ) (f : FileId) (q : Opening) → IsFollowed c trace → AsksOpen c trace e d request serial f q → IsPlainOpening q → f.ino ≡ 0 → ⊥ }
    ensures resolves { (c : Config) (trace : List Line) (e : EpochId) (d : CallId) (request serial : ℕ) (f : FileId) (site : ℕ) → IsFollowed c trace → AsksOpen c trace e d request serial f (how.Resolve site) → (w : Waiting) → call_named (entries trace) d ≡ Some w → site_named (Some w.words) ≡ Some site }
{}

/// Where each told line comes as it may, the script of a call that waits in its epoch, and has taken all its answers, doesn't stray: each
/// answer is of the sort that its request gets, and an open finds a descriptor free. And no reply that it gives says that the epoch was
/// left, since no record refuses so.
pub fn scripts_end_rightly()
    ensures strays { (c : Config) (trace : List Line) (d : CallId) (caller : Waiting) (e : EpochId) → IsFollowed c trace → HasTaken c trace d caller e → gives_now c trace d caller ≡ want.Never → ⊥ }
    ensures unchanged { (c : Config) (trace : List Line) (d : CallId) (caller : Waiting) (e left : EpochId) → IsFollowed c trace → HasTaken c trace d caller e → gives_now c trace d caller ≡ want.Give (reply.No (refusal.Changed left)) → ⊥ }
{}

/// Where each told line comes as it may, an open that gives a descriptor gives one of the sixteen numbers; the instance that it was
/// answered last is the one that was granted to it last, in the mode that its words ask and in its epoch, and it has it.
pub fn descriptors_stand_for_what_was_opened()
    ensures { (c : Config) (trace : List Line) (d : CallId) (caller : Waiting) (e : EpochId) (fd : ℕ) → IsFollowed c trace → HasTaken c trace d caller e → gives_now c trace d caller ≡ want.Give (reply.Opened fd) →
        IsOpenedAs c trace d fd (record { mode = mode_asked caller.words; epoch = e; inst = last_opened no_serial (log trace d); steady = None }) }
{}

/// Where each told line comes as it may, a read that gives what it read, and was granted something, has opened a version again: it has the
/// instance that was granted to it last, and has taken what it read by it.
pub fn reads_open_again_what_they_read()
    ensures { (c : Config) (trace : List Line) (d : CallId) (caller : Waiting) (e : EpochId) (bytes : List ℕ) (x : Descriptor) → IsFollowed c trace → HasTaken c trace d caller e → gives_now c trace d caller ≡ want.Give (reply.Data bytes) → opening_of (entries trace) d ≡ Some x →
        IsReadAgain c trace d e x }
{}

/// Where each told line comes as it may, an instance that is open to write, and of which only the emptiness was asked so far, owes no
/// commit and stands on the version on which it was granted.
pub fn untouched_instances_stand_as_granted()
    ensures { (c : Config) (trace : List Line) (e : EpochId) (g : CallId) (request : ℕ) (i : Serial) (f : FileId) (stamp : Option Stamp) (ss : ℕ) (x : Instance) → IsFollowed c trace → WasGranted trace e g request i mode.Write f stamp ss →
        ((n : ℕ) (o : Op) (r : Outcome) → WasDone trace e i n o r → o ≡ op.Empty) → instance_now c trace e i ≡ Some x → (x.work.owes ≡ false) × (x.work.last ≡ stamp) }
{}
