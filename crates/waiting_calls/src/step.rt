ghost use Rattle.std.specs.Prelude.{◌≡◌};
ghost use Rattle.role_steps.specs.Using.{replies};
ghost use Rattle.role_steps.specs.Views.{Frame, Users};
ghost use Rattle.role_steps.specs.declared.users.WaitingCall.{WaitingCall};
ghost use Rattle.waiting_calls.specs.Steps.{after_step};

use role_steps::Asking;
use trace_book::Reply;

/// What becomes of a call.
#[derive(Drop)]
pub enum Step {
    /// It asks this next.
    Asks { asking: Asking },
    /// It is replied to.
    Replies { reply: Reply },
    /// It stays as it is: it wants what nobody gives.
    Stays,
}

/// A call whose script has come to its reply is replied to at once, whatever the reply says.
pub fn given(reply: Reply) -> Step
    ensures { (f : Frame) (w : WaitingCall) (u : Users) → after_step f w result u ≡ replies f w reply u }
{
    Step::Replies { reply }
}
