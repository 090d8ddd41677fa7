ghost use Rattle.std.specs.Prelude.{◌≡◌, ◌+◌, true, false, cond, ℕ, List, ◌∷◌, Option, Some};
ghost use Rattle.std.specs.List.{find, list_any, AllByRecursion};
ghost use Rattle.locus_ids.specs.declared.config.Config.{Config};
ghost use Rattle.locus_ids.specs.declared.ids.CallId.{CallId};
ghost use Rattle.locus_ids.specs.declared.ids.EpochId.{EpochId};
ghost use Rattle.locus_ids.specs.declared.ids.FileId.{FileId};
ghost use Rattle.locus_ids.specs.declared.ids.Mode.{Mode};
ghost use Rattle.locus_ids.specs.declared.ids.Serial.{Serial};
ghost use Rattle.locus_ids.specs.declared.ids.Stamp.{Stamp};
ghost use Rattle.locus_ids.specs.declared.refusal.Refusal.{Refusal};
ghost use Rattle.commit_graph.specs.Versions.{same_file};
ghost use Rattle.trace_book.specs.declared.call.Call.{Call};
ghost use Rattle.trace_book.specs.declared.operation.Op.{Op};
ghost use Rattle.trace_book.specs.declared.operation.Outcome.{Outcome};
ghost use Rattle.trace_book.specs.declared.operation.Served.{Served};
ghost use Rattle.trace_book.specs.declared.operation.What.{What};
ghost use Rattle.trace_book.specs.declared.record.Record.{Record};
ghost use Rattle.trace_book.specs.declared.record.Record.TheVariants as rec;
ghost use Rattle.promises.specs.Past.{Past, Epoch, Instance, CallSoFar, Making, acts, ends, is_named, nothing_yet, site_at};
ghost use Rattle.promises.specs.After.{after, change, is_actor, is_ender, is_epoch, is_id, with_making};
ghost use Rattle.promises.specs.Rows.{may_follow};
ghost use Rattle.audit_laws.specs.Tidy.Epochs.{EpochStands};
ghost use Rattle.audit_laws.specs.Tidy.Steps.{OneAct, OneCall, OneCommit, OneEnd, made_by};
ghost use Rattle.audit_laws.specs.Tidy.Users.{HasTurns};
ghost use Rattle.audit_laws.specs.Tidy.Tidy.{IsTidy};

/// The past is tidy before the first record, and stays so by each record that may follow.
pub fn tidy_stays()
    ensures first { (c : Config) → IsTidy c (nothing_yet c) }
    ensures next { (c : Config) (p : Past) (r : Record) → IsTidy c p → may_follow c p r ≡ true → IsTidy c (after c r p) }
{}

/// In a tidy past each call is the one of its name; and where an operation or a release of an open instance is a step of a call, those
/// that it changes are this call by its name.
pub fn steps_are_of_one_call()
    ensures own { (c : Config) (p : Past) → IsTidy c p → AllByRecursion (λ (k : CallSoFar). find (is_id k.id) p.calls ≡ Some k) p.calls }
    ensures acted { (c : Config) (p : Past) (t : Epoch) (i : Serial) (n : ℕ) (x : Instance) (k : CallSoFar) (f : CallSoFar → CallSoFar) → IsTidy c p → EpochStands t → HasTurns p.calls t.id x →
        find (is_named i) t.opened ≡ Some x → find (acts t.id x n) p.calls ≡ Some k → change (is_actor t i n) f p.calls ≡ change (is_id k.id) f p.calls }
    ensures ended { (c : Config) (p : Past) (t : Epoch) (i : Serial) (x : Instance) (k : CallSoFar) (f : CallSoFar → CallSoFar) → IsTidy c p → EpochStands t →
        find (is_named i) t.opened ≡ Some x → find (ends t.id x) p.calls ≡ Some k → change (is_ender t i) f p.calls ≡ change (is_id k.id) f p.calls }
{}

/// A record that may follow in a tidy past has to do with one call and one instance: those that tables find by their names. A call that
/// is accepted has its site's next number, and a grant's name is open nowhere in its epoch.
pub fn records_have_one_call()
    ensures accepts { (c : Config) (p : Past) (site process : ℕ) (id : CallId) (words : Call) → IsTidy c p → may_follow c p (rec.Accept site process id words) ≡ true → id.n ≡ (site_at p site).accepted + 1 }
    ensures looks { (c : Config) (p : Past) (e : EpochId) (id : CallId) (request : ℕ) (f : FileId) (w : What) (result : Served) → IsTidy c p → may_follow c p (rec.Look e id request f w result) ≡ true → OneCall p id }
    ensures grants { (c : Config) (p : Past) (e : EpochId) (id : CallId) (request : ℕ) (i : Serial) (m : Mode) (f : FileId) (stamp : Option Stamp) (ss : ℕ) → IsTidy c p → may_follow c p (rec.Grant e id request i m f stamp ss) ≡ true → OneCall p id }
    ensures unopened { (c : Config) (p : Past) (e : EpochId) (id : CallId) (request : ℕ) (i : Serial) (m : Mode) (f : FileId) (stamp : Option Stamp) (ss : ℕ) → IsTidy c p → may_follow c p (rec.Grant e id request i m f stamp ss) ≡ true → (t : Epoch) → find (is_epoch e) p.epochs ≡ Some t → list_any (is_named i) t.opened ≡ false }
    ensures refuses { (c : Config) (p : Past) (e : EpochId) (id : CallId) (request : ℕ) (i : Serial) (m : Mode) (f : FileId) (why : Refusal) → IsTidy c p → may_follow c p (rec.Refuse e id request i m f why) ≡ true → OneCall p id }
    ensures acts { (c : Config) (p : Past) (e : EpochId) (i : Serial) (n : ℕ) (o : Op) (result : Outcome) → IsTidy c p → may_follow c p (rec.Act e i n o result) ≡ true → OneAct p e i n }
    ensures releases { (c : Config) (p : Past) (e : EpochId) (i : Serial) (f : FileId) (stamp : Option Stamp) → IsTidy c p → may_follow c p (rec.Release e i f stamp) ≡ true → OneEnd p e i }
    ensures commits { (c : Config) (p : Past) (f : FileId) (site : ℕ) (stamp : Stamp) (parents : List Stamp) (content : List ℕ) → IsTidy c p → may_follow c p (rec.Commit f site stamp parents content) ≡ true → OneCommit p f site }
    ensures making { (c : Config) (p : Past) (f : FileId) (site : ℕ) (it : OneCommit p f site) → with_making c f site p ≡ cond (list_any (λ (m : Making). same_file m.file f) p.files) p.files (made_by c f it.call ∷ p.files) }
{}
