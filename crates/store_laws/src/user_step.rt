//! The steps of the using site of a site in an epoch, in the form in which the one tree takes them.
ghost use Rattle.std.specs.Prelude.{ℕ, ◌≡◌, true, List, None, Some};
ghost use Rattle.locus_ids.specs.declared.config.Config.{Config};
ghost use Rattle.trace_book.specs.declared.call.Call.{Call};
ghost use Rattle.trace_book.specs.declared.operation.Outcome.{Outcome as Result};
ghost use Rattle.wire_messages.specs.declared.body.Body.TheVariants as body;
ghost use Rattle.wire_messages.specs.declared.body.CloseAnswer.{CloseAnswer};
ghost use Rattle.wire_messages.specs.declared.body.Granted.{Granted};
ghost use Rattle.wire_messages.specs.declared.body.LookAnswer.{LookAnswer};
ghost use Rattle.wire_messages.specs.declared.packet.Packet.{Packet};
ghost use Rattle.role_steps.specs.Mends.{kept_stamps};
ghost use Rattle.role_steps.specs.Using.{on_as_held, on_call, on_close_done, on_look_done, on_op_done, on_open_done};
ghost use Rattle.role_steps.specs.Views.{Frame, SiteView, Users};
ghost use Rattle.the_run.specs.Steps.{call_frame};
ghost use Rattle.the_run.specs.Worlds.{Line};
ghost use Rattle.tree_model.specs.Epochs.{epoch_of, is_up};
ghost use Rattle.tree_laws.specs.Doing.{Fine, IsOfUsers, NoWrite};
ghost use Rattle.tree_laws.specs.Printed.{entries};
ghost use Rattle.store_laws.specs.OneTree.Places.{InsideFact, UsersOf, UsersOutside};
ghost use Rattle.store_laws.specs.OneTree.Rest.{AllRest, Past};
ghost use Rattle.store_laws.specs.OneTree.Roles.{Came, CallsFine, MayCall, Ready};
ghost use Rattle.store_laws.specs.OneTree.UserStepRests.{UserRests};

/// The using site of a site in an epoch does its steps as it may, where all came as it may so far and the packet carries its fact:
/// it takes the answers to looks, opens and closes and the results of operations, and the calls go on; and it accepts the calls that lines ask. (What other laws give of
/// requests, replies and answers is premised of every such trace.)
pub fn user_steps_are_fine()
    ensures looked { (c : Config) → UserRests c → (n : ℕ) (trace : List Line) (f : Frame) (p : Packet) (call request take : ℕ) (a : LookAnswer) (u : Users) → Ready c trace f → UsersOf c f trace u → Came c trace f p (body.LookDone call request take a) → AllRest c n trace (on_look_done f call request take a u).told → CallsFine c n trace f (on_look_done f call request take a u) }
    ensures acted { (c : Config) → UserRests c → (n : ℕ) (trace : List Line) (f : Frame) (p : Packet) (serial k : ℕ) (r : Result) (u : Users) → Ready c trace f → UsersOf c f trace u → Came c trace f p (body.OpDone serial k r) → AllRest c n trace (on_op_done f serial k r u).told → CallsFine c n trace f (on_op_done f serial k r u) }
    ensures held { (c : Config) → UserRests c → (n : ℕ) (trace : List Line) (f : Frame) (p : Packet) (serial k len : ℕ) (u : Users) → Ready c trace f → UsersOf c f trace u → Came c trace f p (body.AsHeld serial k len) → AllRest c n trace (on_as_held f serial k u).told → CallsFine c n trace f (on_as_held f serial k u) }
    ensures closed { (c : Config) → UserRests c → (n : ℕ) (trace : List Line) (f : Frame) (p : Packet) (serial : ℕ) (a : CloseAnswer) (u : Users) → Ready c trace f → UsersOf c f trace u → Came c trace f p (body.CloseDone serial a) → AllRest c n trace (on_close_done f serial a u).told → CallsFine c n trace f (on_close_done f serial a u) }
    ensures opened { (c : Config) → UserRests c → (n : ℕ) (trace : List Line) (f : Frame) (p : Packet) (serial : ℕ) (a : Granted) (v : SiteView) → Ready c trace f → InsideFact c f trace v → Came c trace f p (body.OpenDone serial a) → AllRest c n trace (on_open_done f (kept_stamps v) serial a v.users).told → CallsFine c n trace f (on_open_done f (kept_stamps v) serial a v.users) }
    ensures calls { (c : Config) → UserRests c → (n : ℕ) (trace : List Line) (f : Frame) (process : ℕ) (words : Call) (u : Users) → Ready c trace f → UsersOf c f trace u → MayCall c f.me process words u → AllRest c n trace (on_call f (Some f.epoch) process words u).told → CallsFine c n trace f (on_call f (Some f.epoch) process words u) }
{}

/// A call that a line asks of a site in no epoch is accepted and ends at once, refused or with the close of what no instance holds: both come
/// as they may, nothing is sent, and the site has then what it had, but for the descriptor that the call closes.
pub fn calls_outside_end_at_once()
    ensures { (c : Config) (n : ℕ) (trace : List Line) (me boot process : ℕ) (words : Call) (u : Users) → Past c trace → is_up c (entries trace) me ≡ true → epoch_of (entries trace) me ≡ None → UsersOutside c me boot trace u → MayCall c me process words u → AllRest c n trace (on_call (call_frame c me boot None) None process words u).told →
        Fine Users c n trace (IsOfUsers me) (UsersOutside c me boot) NoWrite (on_call (call_frame c me boot None) None process words u) }
{}
