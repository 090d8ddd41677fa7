ghost use Rattle.std.specs.Prelude.{ℕ, ◌≡◌, ◌+◌, ◌-◌, true, List, ◌∷◌, Some, length, take};
ghost use Rattle.locus_ids.specs.declared.config.Config.{Config};
ghost use Rattle.locus_ids.specs.declared.ids.CallId.{CallId};
ghost use Rattle.locus_ids.specs.declared.ids.EpochId.{EpochId};
ghost use Rattle.locus_ids.specs.declared.ids.FileId.{FileId};
ghost use Rattle.locus_ids.specs.declared.ids.Serial.{Serial};
ghost use Rattle.trace_book.specs.declared.operation.Served.{Served};
ghost use Rattle.trace_book.specs.declared.operation.What.{What};
ghost use Rattle.call_rules.specs.declared.want.Want.{Want};
ghost use Rattle.call_rules.specs.declared.want.Want.TheVariants as want;
ghost use Rattle.the_run.specs.of_wire_messages.declared.body.Opening.{Opening};
ghost use Rattle.the_run.specs.of_wire_messages.declared.packet.Packet.{Packet};
ghost use Rattle.the_run.specs.of_role_steps.Views.{Told};
ghost use Rattle.the_run.specs.Kept.{Among};
ghost use Rattle.the_run.specs.Worlds.{Line};
ghost use Rattle.lawful_trace.specs.of_tree_model.declared.accepted.Waiting.{Waiting};
ghost use Rattle.lawful_trace.specs.of_tree_model.Calls.{call_named, waiting};
ghost use Rattle.lawful_trace.specs.of_tree_model.Epochs.{epoch_of};
ghost use Rattle.lawful_trace.specs.Progress.{answers, wants_after, wants_next};
ghost use Rattle.lawful_trace.specs.TreeRows.{IsCallIn, is_next_or_again};
ghost use Rattle.tree_laws.specs.Calls.{Asks, is_request, request_number};
ghost use Rattle.tree_laws.specs.Serials.{asked_now};
ghost use Rattle.tree_laws.specs.Printed.{entries};
ghost use Rattle.tree_laws.specs.Following.{MayTell, IsFollowed, RowsAreLawful};
ghost use Rattle.tree_laws.specs.Frames.{AllStay};
ghost use Rattle.tree_laws.specs.Holding.{has_instances, IsOf};
ghost use Rattle.tree_laws.specs.Instances.{AsksOpen};
ghost use Rattle.tree_laws.specs.Packets.{PacketFact};
ghost use Rattle.tree_laws.specs.Processes.{Follows, IsOver, OnlyMends, IsUnder};
ghost use Rattle.tree_laws.specs.Past.{WasLooked, WasNamed};

/// Where each told line comes as it may, each printed record comes as the lawful trace has it.
pub fn followed_traces_are_lawful()
    ensures { (c : Config) (trace : List Line) → IsFollowed c trace → RowsAreLawful c (entries trace) }
{}

/// What a packet of any kind carries stays when a line is told that comes as it may, where the order of versions stays.
pub fn packet_facts_stay()
    ensures { (c : Config) (older : List Line) (n : ℕ) (x : Told) → IsFollowed c older → MayTell c older x → AllStay c older (record { number = n; told = x } ∷ older) x →
        (p : Packet) → PacketFact c older p → PacketFact c (record { number = n; told = x } ∷ older) p }
{}

/// Where each told line comes as it may, what a call asks by what its process has taken is what the lawful trace asks of its
/// next step: the next request after all its answers, or a look, for the first time or again.
pub fn requests_are_next()
    ensures next { (c : Config) (trace : List Line) (d : CallId) (w : Want) → IsFollowed c trace → Asks c trace d w → ((f : FileId) (what : What) → w ≡ want.Look f what → ⊥) →
        (wants_next c (entries trace) d ≡ w) × (request_number trace d ≡ length (answers c (entries trace) d) + 1) }
    ensures looks { (c : Config) (trace : List Line) (d : CallId) (f : FileId) (what : What) → IsFollowed c trace → Asks c trace d (want.Look f what) →
        (wants_after c (entries trace) d (take (request_number trace d - 1) (answers c (entries trace) d)) ≡ want.Look f what) × (is_next_or_again (request_number trace d) (length (answers c (entries trace) d)) ≡ true) }
{}

/// Where each told line comes as it may, a serial number is of one open in an epoch: two calls of a site that ask opens under
/// it are one, and an open that is asked still was neither granted nor refused.
pub fn serials_are_of_one_open()
    ensures one { (c : Config) (trace : List Line) (e : EpochId) (d other : CallId) (request number serial : ℕ) (f g : FileId) (it how : Opening) → IsFollowed c trace →
        AsksOpen c trace e d request serial f it → AsksOpen c trace e other number serial g how → d.site ≡ other.site → d ≡ other }
    ensures unnamed { (c : Config) (trace : List Line) (e : EpochId) (d : CallId) (request : ℕ) (i : Serial) (f : FileId) (it : Opening) → IsFollowed c trace →
        AsksOpen c trace e d request i.serial f it → i.us ≡ d.site → WasNamed trace e i → ⊥ }
{}

/// Where each told line comes as it may, a call that asks something waits, while its site is in the epoch in which it was made.
pub fn calls_that_ask_wait()
    ensures { (c : Config) (trace : List Line) (e : EpochId) (d : CallId) → IsFollowed c trace → (k : IsCallIn (entries trace) e d) → epoch_of (entries trace) d.site ≡ Some e →
        is_request (asked_now c trace d) ≡ true → Among k.accepted (waiting (entries trace)) }
{}

/// Where each told line comes as it may, of two calls of a process in an epoch the earlier is over: it doesn't wait, and asks
/// nothing. (Mends of several groups may wait side by side: they wait for those of their own group.)
pub fn earlier_calls_are_over()
    ensures { (c : Config) (trace : List Line) (e : EpochId) (d other : CallId) → IsFollowed c trace → Follows (entries trace) e d other → IsOver c trace d }
{}

/// Where each told line comes as it may, and process 0 makes only mends, the looks of a process in a group ascend: each that
/// stands is up to the last one by call, request and how often it was asked.
pub fn looks_ascend()
    ensures { (c : Config) (trace : List Line) (e : EpochId) (d : CallId) (request times : ℕ) (f : FileId) (what : What) (result : Served) → IsFollowed c trace → OnlyMends trace → WasLooked trace e d request times f what result →
        IsUnder trace e d request times f.group }
{}

/// Where each told line comes as it may, a call that was accepted asks operations and closes of what it has alone: of the
/// instance of its descriptor, or of what its opens were answered and it hasn't closed.
pub fn calls_ask_of_what_they_have()
    ensures { (c : Config) (trace : List Line) (d : CallId) (w : Waiting) → IsFollowed c trace → call_named (entries trace) d ≡ Some w → IsOf (has_instances c trace d) (asked_now c trace d) }
{}
