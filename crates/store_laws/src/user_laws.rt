ghost use Rattle.std.specs.Prelude.{ℕ, ◌≡◌, ◌+◌, true, List, [], ◌∷◌, Some};
ghost use Rattle.locus_ids.specs.declared.config.Config.{Config};
ghost use Rattle.locus_ids.specs.declared.ids.CallId.{CallId};
ghost use Rattle.locus_ids.specs.declared.ids.EpochId.{EpochId};
ghost use Rattle.locus_ids.specs.declared.ids.FileId.{FileId};
ghost use Rattle.locus_ids.specs.declared.ids.Stamp.{Stamp};
ghost use Rattle.trace_book.specs.declared.call.Call.{Call};
ghost use Rattle.trace_book.specs.declared.operation.Outcome.{Outcome as Result};
ghost use Rattle.trace_book.specs.declared.operation.Served.{Served};
ghost use Rattle.trace_book.specs.declared.operation.What.{What};
ghost use Rattle.trace_book.specs.declared.record.Record.TheVariants as says;
ghost use Rattle.trace_book.specs.declared.reply.Reply.{Reply};
ghost use Rattle.call_rules.specs.declared.answer.Answer.{Answer};
ghost use Rattle.call_rules.specs.declared.want.Want.TheVariants as want;
ghost use Rattle.wire_messages.specs.declared.body.CloseAnswer.{CloseAnswer};
ghost use Rattle.wire_messages.specs.declared.body.Granted.{Granted};
ghost use Rattle.wire_messages.specs.declared.body.LookAnswer.{LookAnswer};
ghost use Rattle.role_steps.specs.Own.{Every};
ghost use Rattle.role_steps.specs.Requests.{users_repeats, waiting_key, waiting_of};
ghost use Rattle.role_steps.specs.Using.{goes_on, next_want, on_as_held, on_call, on_close_done, on_look_done, on_op_done, on_open_done, reply_record, takes_record, with_answer};
ghost use Rattle.role_steps.specs.Views.{Frame, Shown, Told, Users};
ghost use Rattle.role_steps.specs.declared.users.WaitingCall.{WaitingCall};
ghost use Rattle.tree_laws.specs.of_the_run.Kept.{Among};
ghost use Rattle.tree_laws.specs.of_the_run.Worlds.{Line, told_onto};
ghost use Rattle.tree_laws.specs.Calls.{is_request, request_number, tries, Waits};
ghost use Rattle.tree_laws.specs.Past.{WasLooked};
ghost use Rattle.tree_laws.specs.Printed.{entries};
ghost use Rattle.tree_laws.specs.of_lawful_trace.CallRows.{CallRow};
ghost use Rattle.tree_laws.specs.of_lawful_trace.Progress.{look_answer};
ghost use Rattle.tree_laws.specs.Doing.{FrameFact, IsOfSite, IsOfUsers, UsersFine, UsersInside};
ghost use Rattle.tree_laws.specs.Following.{IsFollowed, MayTell};
ghost use Rattle.tree_laws.specs.Frames.{AllStay, IsFresh};
ghost use Rattle.tree_laws.specs.Packets.{CloseDoneFact, HeldFact, LookDoneFact, OpDoneFact, OpenDoneFact, PacketFact, serial_of};
ghost use Rattle.tree_laws.specs.Serials.{asked_now};
ghost use Rattle.tree_laws.specs.Users.{had, had_by, own_call, BringsFor, UsersFact};
ghost use Rattle.store_laws.specs.Users.Booting.{no_users};
ghost use Rattle.store_laws.specs.Users.Leaving.{LeavesFine};
ghost use Rattle.store_laws.specs.Users.Rests.{ActRests, CloseRests, IsKeptBy, LookRests, LooksStand, OpenRests, ReadRests, ReplyRests, RequestRests, Staying, Steady};
ghost use Rattle.store_laws.specs.Users.Turning.{it, IsNumbered, Turning};

/// Where each told line comes as it may, what the using site of a site in an epoch has stays when somebody else tells a line,
/// where the order of versions stays: its calls, what they ask and what they sent, its instances and its descriptors.
pub fn users_stay()
    ensures { (c : Config) (n : ℕ) (x : Told) (older : List Line) (f : Frame) (u : Users) → IsFollowed c older → MayTell c older x → AllStay c older (record { number = n; told = x } ∷ older) x → FrameFact c older f →
        (IsOfUsers f.me x → ⊥) → (IsOfSite f.me x → ⊥) → UsersInside c f older u → UsersInside c f (record { number = n; told = x } ∷ older) u }
{}

/// When a site leaves its epoch, its calls that wait are answered that this has changed, each as it may; nothing is sent, what
/// the site counts and its descriptors stay, no call waits there any more, and it has no instance.
pub fn users_leave_rightly()
    ensures { (c : Config) (n : ℕ) (older : List Line) (f : Frame) (u : Users) → UsersInside c f older u → LeavesFine c n (record { number = n; told = Shown (says.Leave f.me f.epoch) } ∷ older) f u }
{}

/// What a using site asks again at a tick carries its facts.
pub fn repeats_carry_their_facts()
    ensures { (c : Config) (trace : List Line) (f : Frame) (u : Users) → UsersInside c f trace u → Every (PacketFact c trace) (users_repeats f u) }
{}

/// In the first boot of a site, and after each boot, its using site counts nothing and has no descriptor, as the lines told say.
pub fn users_begin_so()
    ensures first { (c : Config) (me : ℕ) → UsersFact c [] me 1 no_users }
    ensures boots { (c : Config) (n me boot : ℕ) (older : List Line) → IsFollowed c older → MayTell c older (Shown (says.Up me boot)) → UsersFact c (record { number = n; told = Shown (says.Up me boot) } ∷ older) me boot no_users }
{}

/// What a using site counts, and its descriptors, stay when somebody else tells a line, also where its site is in no epoch.
pub fn counts_stay_outside()
    ensures { (c : Config) (n : ℕ) (x : Told) (older : List Line) (me boot : ℕ) (u : Users) → IsFresh c older x → (IsOfUsers me x → ⊥) → (IsOfSite me x → ⊥) → UsersFact c older me boot u → UsersFact c (record { number = n; told = x } ∷ older) me boot u }
{}

/// A call that has just been accepted or has just taken an answer asks its next request as it may: its packet carries its fact,
/// and what the using site has is so by the trace. (Which call the operations of a named instance are steps of, and what a
/// remove has seen, are premises.)
pub fn requests_go_on()
    ensures { (c : Config) (n : ℕ) (trace : List Line) (f : Frame) (w : WaitingCall) (u : Users) → IsFollowed c trace → FrameFact c trace f → RequestRests c trace → Turning c trace f w u → is_request (next_want f w u) ≡ true → UsersFine c n trace f (goes_on f w u) }
{}

/// A process that takes the answer that waits for its call, and that neither opens nor closes anything, turns it: the call has taken
/// all its answers, and all that its site has beside it stays.
pub fn answers_turn_their_calls()
    ensures { (c : Config) (n : ℕ) (trace : List Line) (f : Frame) (w : WaitingCall) (u : Users) (a : Answer) → IsFollowed c trace → FrameFact c trace f → UsersInside c f trace u → Among w u.waiting → Waits c trace (it f w) a →
        AllStay c trace (told_onto n (takes_record f w a ∷ []) trace) (takes_record f w a) → had_by (asked_now c trace (it f w)) a (had c trace f.me) ≡ had c trace f.me → BringsFor c (told_onto n (takes_record f w a ∷ []) trace) (it f w) w.words w.brought →
        Turning c (told_onto n (takes_record f w a ∷ []) trace) f (with_answer w a) u }
{}

/// A call that has taken all its answers and has its reply is answered as it may: the row is lawful, and comes in its time. (That no
/// script strays or says that the epoch was left, and what an open's descriptor stands for, are premises.)
pub fn replies_come_as_they_may()
    ensures { (c : Config) (trace : List Line) (f : Frame) (w : WaitingCall) (u : Users) → IsFollowed c trace → FrameFact c trace f → ReplyRests c trace → Turning c trace f w u → (r : Reply) → next_want f w u ≡ want.Give r → MayTell c trace (reply_record f.me f.boot w r) }
{}

/// A call that has just been accepted or has just taken an answer goes on as it may: it asks its next request, or it is answered; each
/// line that is told comes as it may, each packet carries its fact, and what the using site has then is so by the trace.
pub fn calls_go_on()
    ensures { (c : Config) (n : ℕ) (trace : List Line) (f : Frame) (w : WaitingCall) (u : Users) → IsFollowed c trace → FrameFact c trace f → RequestRests c trace → ReplyRests c trace → Turning c trace f w u → Staying c n trace (goes_on f w u).told → UsersFine c n trace f (goes_on f w u) }
{}

/// Where each told line comes as it may, a look that stands at the current request of its call, and at as many tries, is what the call
/// asks, and its answer by the trace is what waits for it.
pub fn answered_looks_wait()
    ensures { (c : Config) (trace : List Line) (e : EpochId) (d : CallId) (request times : ℕ) (file : FileId) (w : What) (result : Served) → IsFollowed c trace → Steady c trace → LooksStand c →
        WasLooked trace e d request times file w result → request ≡ request_number trace d → times ≡ tries trace d → Waits c trace d (look_answer c (entries trace) file w result) × (asked_now c trace d ≡ want.Look file w) }
{}

/// The answer to a look comes to its using site: the process takes it and goes on as it may, or asks its look again where the
/// version was there no more, and what the site has then is so by the trace; where the call asks it no more nothing is done.
pub fn looks_are_taken()
    ensures { (c : Config) (n : ℕ) (trace : List Line) (f : Frame) (u : Users) (call request times : ℕ) (a : LookAnswer) → IsFollowed c trace → FrameFact c trace f → UsersInside c f trace u → Steady c trace → LookRests c trace →
        LookDoneFact c trace f.epoch f.me f.boot call request times a → Staying c n trace (on_look_done f call request times a u).told → UsersFine c n trace f (on_look_done f call request times a u) }
{}

/// The result of an operation comes to its using site: the process takes it and goes on as it may, and what the site has then is so by the
/// trace; where no call asks it nothing is done. (That the answer waits where the operation was done is a premise, and what a read gave.)
pub fn results_are_taken()
    ensures { (c : Config) (n : ℕ) (trace : List Line) (f : Frame) (u : Users) (serial number : ℕ) (r : Result) → IsFollowed c trace → FrameFact c trace f → UsersInside c f trace u → ActRests c trace → ReadRests c trace →
        OpDoneFact trace f.epoch (serial_of f.me serial) number r → Staying c n trace (on_op_done f serial number r u).told → UsersFine c n trace f (on_op_done f serial number r u) }
{}

/// A read is answered whose bytes are at its using site: the process takes these, which are what was read, and goes on as it may, and
/// what the site has then is so by the trace; where no call asks it so nothing is done. (What a read gave is a premise.)
pub fn held_reads_are_taken()
    ensures { (c : Config) (n : ℕ) (trace : List Line) (f : Frame) (u : Users) (serial number len : ℕ) → IsFollowed c trace → FrameFact c trace f → UsersInside c f trace u → ActRests c trace → ReadRests c trace →
        HeldFact trace f.epoch (serial_of f.me serial) number len → Staying c n trace (on_as_held f serial number u).told → UsersFine c n trace f (on_as_held f serial number u) }
{}

/// The answer to a close comes to its using site: the process takes it, the instance goes, and the call goes on as it may; what the site
/// has then is so by the trace. (That the answer waits where the instance was released is a premise.)
pub fn closes_are_taken()
    ensures { (c : Config) (n : ℕ) (trace : List Line) (f : Frame) (u : Users) (serial : ℕ) (a : CloseAnswer) → IsFollowed c trace → FrameFact c trace f → UsersInside c f trace u → CloseRests c trace →
        CloseDoneFact c trace f.epoch (serial_of f.me serial) a → Staying c n trace (on_close_done f serial a u).told → UsersFine c n trace f (on_close_done f serial a u) }
{}

/// The answer to an open comes to its using site: where it was granted the process takes it, the site has the instance, and the call goes
/// on; where it was refused the process takes the refusal; and what the site has then is so by the trace. (That no operation was asked of
/// it so far, and that what waits for a mend tells what is kept, are premises.)
pub fn opens_are_taken()
    ensures { (c : Config) (n : ℕ) (trace : List Line) (f : Frame) (u : Users) (kept : FileId → List Stamp) (serial : ℕ) (a : Granted) → IsFollowed c trace → FrameFact c trace f → UsersInside c f trace u → OpenRests c trace → IsKeptBy c trace f kept →
        OpenDoneFact c trace f.epoch f.me serial a → Staying c n trace (on_open_done f kept serial a u).told → UsersFine c n trace f (on_open_done f kept serial a u) }
{}

/// A call is accepted at a site in its epoch, where its row is lawful, its words name a descriptor that a line can name, and no call of its
/// process waits: the descriptor that it closes is free, and it asks its first request or is answered; each line comes as it may, each
/// packet carries its fact, and what the site has then is so by the trace. So it is of mends, too.
pub fn accepted_calls_go_on()
    ensures { (c : Config) (n : ℕ) (trace : List Line) (f : Frame) (process : ℕ) (words : Call) (u : Users) → IsFollowed c trace → FrameFact c trace f → UsersInside c f trace u → CallRow c (entries trace) f.me process (own_call f.me f.boot (u.calls + 1)) words → IsNumbered words →
        Every (λ (v : WaitingCall). waiting_key v ≡ waiting_of process words → ⊥) u.waiting → Staying c n trace (on_call f (Some f.epoch) process words u).told → UsersFine c n trace f (on_call f (Some f.epoch) process words u) }
{}
