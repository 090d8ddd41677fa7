ghost use Rattle.std.specs.Prelude.{◌≡◌, ◌<◌, length, IfOk};
ghost use Rattle.trace_book.specs.declared.operation.Op.{Op};
ghost use Rattle.call_rules.specs.Opening.{close_wants, op_wants, reply_to, uses_wants};

use call_rules::{Answer, Want};
use locus_ids::{NoMemory, Serial};
use trace_book::{Call, Op, Outcome, Reply};

/// What a call on an open instance asks.
pub fn uses_wants(words: &Call, inst: Serial, answers: &[Answer]) -> Result<Want, NoMemory>
    ensures { IfOk result (λ w. w ≡ uses_wants words.now inst answers.now) }
{
    match words {
        Call::Close { fd: _ } => close_wants(inst, answers),
        Call::Read { fd: _, at, len } => {
            let op = Op::Read { at: *at, len: *len };
            op_wants(inst, op, answers)
        }
        Call::Write { fd: _, at, bytes } => match answers {
            [] => {
                let bytes = bytes.copy()?;
                let op = Op::Write { at: *at, bytes };
                Ok(Want::Do { inst, op })
            }
            _ => op_reply(inst, answers),
        },
        Call::Cut { fd: _, len } => op_wants(inst, Op::Cut { len: *len }, answers),
        Call::Commit { fd: _ } => op_wants(inst, Op::Commit, answers),
        Call::Abort { fd: _ } => op_wants(inst, Op::Abort, answers),
        _ => Ok(Want::Never),
    }
}

/// One operation, and the reply that its outcome makes.
fn op_wants(inst: Serial, op: Op, answers: &[Answer]) -> Result<Want, NoMemory>
    ensures { IfOk result (λ w. w ≡ op_wants inst op answers.now) }
{
    match answers {
        [] => Ok(Want::Do { inst, op }),
        _ => op_reply(inst, answers),
    }
}

/// What follows an operation, once it is answered.
fn op_reply(inst: Serial, answers: &[Answer]) -> Result<Want, NoMemory>
    requires { 0 < length answers.now }
    ensures { (o : Op) → IfOk result (λ w. w ≡ op_wants inst o answers.now) }
{
    match answers {
        [Answer::Did { result }] => {
            let reply = reply_to(result)?;
            Ok(Want::Give { reply })
        }
        [Answer::Refused { why }] => {
            let why = why.copy()?;
            Ok(Want::Give {
                reply: Reply::No { why },
            })
        }
        _ => Ok(Want::Never),
    }
}

pub(crate) fn reply_to(outcome: &Outcome) -> Result<Reply, NoMemory>
    ensures { IfOk result (λ r. r ≡ reply_to outcome.now) }
{
    match outcome {
        Outcome::Done => Ok(Reply::Done),
        Outcome::Found { ino: _, kind: _ } => Ok(Reply::Done),
        Outcome::Data { bytes } => {
            let bytes = bytes.copy()?;
            Ok(Reply::Data { bytes })
        }
        Outcome::Committed { stamp } => Ok(Reply::Committed { stamp: *stamp }),
        Outcome::No { why } => {
            let why = why.copy()?;
            Ok(Reply::No { why })
        }
    }
}

/// The instance is closed, and the reply names the version that it made.
pub(crate) fn close_wants(inst: Serial, answers: &[Answer]) -> Result<Want, NoMemory>
    ensures { IfOk result (λ w. w ≡ close_wants inst answers.now) }
{
    match answers {
        [] => Ok(Want::Close { inst }),
        [Answer::Ended { stamp }] => Ok(Want::Give {
            reply: Reply::Closed { stamp: *stamp },
        }),
        [Answer::Refused { why }] => {
            let why = why.copy()?;
            Ok(Want::Give {
                reply: Reply::No { why },
            })
        }
        _ => Ok(Want::Never),
    }
}
