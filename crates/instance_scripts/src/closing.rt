ghost use Rattle.std.specs.Prelude.{◌≡◌, ◌∷◌, List, map, IfOk};
ghost use Rattle.locus_ids.specs.declared.ids.Serial.{Serial};
ghost use Rattle.trace_book.specs.declared.reply.Reply.{Reply};
ghost use Rattle.call_rules.specs.declared.answer.Answer.TheVariants.{Refused};
ghost use Rattle.call_rules.specs.Closing.{Unchanged, close_all, give_up, gives};

use call_rules::{Answer, Want};
use locus_ids::{NoMemory, Refusal, Serial};
use trace_book::Reply;

/// The reply, where no more was asked.
pub(crate) fn give(reply: Reply, answers: &[Answer]) -> Want
    ensures { result ≡ gives reply answers.now }
{
    match answers {
        [] => Want::Give { reply },
        _ => Want::Never,
    }
}

/// After a refusal the call's own instances are closed, and the refusal is the reply.
pub(crate) fn give_up(own: &[Serial], why: &Refusal, answers: &[Answer]) -> Result<Want, NoMemory>
    ensures { IfOk result (λ w. w ≡ give_up (map Unchanged own.now) why.now answers.now) }
{
    let [inst, own @ ..] = own else {
        let why = why.copy()?;
        return Ok(give(Reply::No { why }, answers));
    };
    match answers {
        [] => Ok(Want::Close { inst: *inst }),
        [Answer::Ended { .. }, answers @ ..] => give_up(own, why, answers),
        [Answer::Refused { .. }, answers @ ..] => give_up(own, why, answers),
        _ => Ok(Want::Never),
    }
}

/// Where nothing was refused the call's own instances are closed, and the reply is given. The first close that is refused
/// makes it a refusal.
pub(crate) fn close_all(own: &[Serial], reply: Reply, answers: &[Answer]) -> Result<Want, NoMemory>
    ensures { IfOk result (λ w. w ≡ close_all own.now reply answers.now) }
{
    let [inst, own @ ..] = own else {
        return Ok(give(reply, answers));
    };
    match answers {
        [] => Ok(Want::Close { inst: *inst }),
        [Answer::Ended { .. }, answers @ ..] => close_all(own, reply, answers),
        [Answer::Refused { why }, answers @ ..] => { refuse(*inst, own, &reply, why, answers) }
        _ => Ok(Want::Never),
    }
}

/// The close of an instance was refused: in place of the reply the others are closed, and the refusal is given.
fn refuse(
    inst: Serial,
    own: &[Serial],
    reply: &Reply,
    why: &Refusal,
    answers: &[Answer],
) -> Result<Want, NoMemory>
    ensures { IfOk result (λ w. w ≡ close_all (inst ∷ own.now) reply.now (Refused why.now ∷ answers.now)) }
{
    give_up(own, why, answers)
}
