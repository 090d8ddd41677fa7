ghost use Rattle.std.specs.Prelude.{◌≡◌, ℕ, Bool, true, false, cond, List, [], ◌∷◌, ◌++◌, Option, Some};
ghost use Rattle.locus_ids.specs.declared.config.Config.{Config};
ghost use Rattle.locus_ids.specs.declared.config.Mount.{Mount};
ghost use Rattle.locus_ids.specs.declared.ids.CallId.{CallId};
ghost use Rattle.locus_ids.specs.declared.ids.Serial.{Serial};
ghost use Rattle.commit_graph.specs.Grants.{is_read};
ghost use Rattle.commit_graph.specs.declared.history.Version.{Version};
ghost use Rattle.locus_ids.specs.declared.ids.EpochId.{EpochId};
ghost use Rattle.locus_ids.specs.declared.refusal.Refusal.TheVariants.{ReadOnly};
ghost use Rattle.trace_book.specs.declared.call.Call.TheVariants as words;
ghost use Rattle.trace_book.specs.declared.descriptor.Beginning.{Beginning};
ghost use Rattle.trace_book.specs.declared.descriptor.Beginning.TheVariants as begins;
ghost use Rattle.trace_book.specs.declared.descriptor.Descriptor.{Descriptor};
ghost use Rattle.trace_book.specs.declared.descriptor.OneVersion.{OneVersion};
ghost use Rattle.trace_book.specs.declared.operation.Op.{Op};
ghost use Rattle.trace_book.specs.declared.operation.Op.TheVariants as op;
ghost use Rattle.trace_book.specs.declared.operation.Outcome.{Outcome};
ghost use Rattle.trace_book.specs.declared.operation.Outcome.TheVariants as outcome;
ghost use Rattle.trace_book.specs.declared.reply.Reply.TheVariants as reply;
ghost use Rattle.call_rules.specs.declared.answer.Answer.{Answer};
ghost use Rattle.call_rules.specs.declared.want.Want.TheVariants as want;
ghost use Rattle.call_rules.specs.Descriptors.{begins_change, begins_close, begins_read, is_in};
ghost use Rattle.call_rules.specs.Scripts.{wants};
ghost use Rattle.tree_model.specs.Folds.{Trace};
ghost use Rattle.tree_model.specs.Given.{gives_act};
ghost use Rattle.tree_model.specs.State.{TreeState};
ghost use Rattle.tree_model.specs.Working.{work_after};
ghost use Rattle.tree_model.specs.declared.instance.Instance.{Instance};
ghost use Rattle.lawful_trace.specs.Progress.{Answers, answers};
ghost use Rattle.lawful_trace.specs.Tables.{descriptor};
ghost use Rattle.steady_laws.specs.OneVersion.{kept_version, steady_of};
ghost use Rattle.steady_laws.specs.Answered.{KeepsContent, ReadsOn, WasAnswered};
ghost use Rattle.steady_laws.specs.Reads.{AsksRead, IsRead};

/// The version that a number keeps from its open to its close is that of its descriptor, whichever instance holds that.
pub fn descriptors_keep_versions()
    ensures kept { (trace : Trace) (site process fd : ℕ) → kept_version trace site process fd ≡ steady_of (descriptor trace site process fd) }
{}

/// By a steady descriptor a read begins on the instance that holds it, where the site is still in the epoch of that, and else by opening its
/// version again; a close of what no instance holds asks nothing; and what changes the file is refused, in an epoch or in none. Where that
/// begins on an instance, it is the one of a descriptor that isn't only read.
pub fn steady_calls_begin()
    ensures reads { (now : EpochId) (d : Descriptor) (v : OneVersion) → d.steady ≡ Some v → begins_read (Some now) (Some d) ≡ cond (is_in (Some now) d.epoch) (begins.Uses d.epoch d.inst) (begins.Reopens v d.epoch) }
    ensures closes { (now : Option EpochId) (d : Descriptor) (v : OneVersion) → d.steady ≡ Some v → begins_close now (Some d) ≡ cond (is_in now d.epoch) (begins.Uses d.epoch d.inst) begins.Frees }
    ensures changes { (now : Option EpochId) (d : Descriptor) (v : OneVersion) → d.steady ≡ Some v → begins_change now (Some d) ≡ begins.Denied ReadOnly }
    ensures writes { (now : Option EpochId) (d : Descriptor) (e : EpochId) (i : Serial) → begins_change now (Some d) ≡ begins.Uses e i → (is_read d.mode ≡ false) × (d.epoch ≡ e) × (d.inst ≡ i) }
{}

/// A read that gives bytes has had them of one operation: on the instance on which it began, or on one that was opened again for it with the
/// stamp that its descriptor keeps.
pub fn reads_have_one_operation()
    ensures { (mounts : List Mount) (packed : ℕ → Bool) (free : Option ℕ) (fd at len : ℕ) (begins : Beginning) (answers : List Answer) (bytes : List ℕ) →
        wants mounts packed free (words.Read fd at len) begins answers ≡ want.Give (reply.Data bytes) → IsRead begins answers bytes }
{}

/// What a read asks of an instance is to read it: of that on which it began, or of one that was opened again for it with the stamp that its
/// descriptor keeps.
pub fn reads_ask_to_read()
    ensures { (mounts : List Mount) (packed : ℕ → Bool) (free : Option ℕ) (fd at len : ℕ) (begins : Beginning) (answers : List Answer) (i : Serial) (o : Op) →
        wants mounts packed free (words.Read fd at len) begins answers ≡ want.Do i o → AsksRead begins at len answers i o }
{}

/// The last answer of a call is that of a record of the trace, which was a step of it.
pub fn last_answers_are_of_records()
    ensures { (c : Config) (t : Trace) (d : CallId) (earlier : Answers) (a : Answer) → answers c t d ≡ earlier ++ a ∷ [] → WasAnswered c t d earlier a }
{}

/// An operation that reads bytes on an open instance, as the tree gives it, reads its working content, and leaves that as it is.
pub fn reads_are_of_working_contents()
    ensures keeps { (h : List Version) (t : TreeState) (at len : ℕ) (result : Outcome) (x : Instance) → KeepsContent x.work (work_after h t (op.Read at len) result x) }
    ensures gives { (h : List Version) (t : TreeState) (i : Serial) (n at len : ℕ) (bytes : List ℕ) → gives_act h t i n (op.Read at len) (outcome.Data bytes) ≡ true → ReadsOn t i at len bytes }
{}
