ghost use Rattle.std.specs.Prelude.{◌≡◌, IfOk};
ghost use Rattle.call_rules.specs.Reopening.{reads_again, reopen_wants, reopened};

use crate::closing::give_up;
use crate::using::reply_to;
use call_rules::{Answer, Want};
use locus_ids::{EpochId, NoMemory, Refusal, Serial};
use read_reopen::{Opened, comes_of};
use trace_book::{Call, OneVersion, Op, OpenMode, Reply};

/// A read of a version that a steady descriptor keeps.
#[derive(Clone, Copy)]
struct Again {
    kept: OneVersion,
    last: EpochId,
    at: u32,
    len: u16,
}

/// What a call asks by a steady descriptor that no instance holds: a read opens its version again.
pub fn reopen_wants(
    words: &Call,
    kept: OneVersion,
    last: EpochId,
    answers: &[Answer],
) -> Result<Want, NoMemory>
    ensures { IfOk result (λ w. w ≡ reopen_wants words.now kept last answers.now) }
{
    let Call::Read { fd: _, at, len } = words else {
        return Ok(Want::Never);
    };
    match answers {
        [] => Ok(Want::Open {
            file: kept.file,
            mode: OpenMode::Read,
        }),
        [Answer::Reading { inst, version }, answers @ ..] => {
            let again = Again {
                kept,
                last,
                at: *at,
                len: *len,
            };
            reopened(again, *inst, *version, answers)
        }
        [Answer::Refused { why }] => {
            let why = why.copy()?;
            Ok(Want::Give {
                reply: Reply::No { why },
            })
        }
        _ => Ok(Want::Never),
    }
}

/// The version that was opened is read where it is the kept one, and closed where it is another.
fn reopened(
    again: Again,
    inst: Serial,
    version: OneVersion,
    answers: &[Answer],
) -> Result<Want, NoMemory>
    ensures { IfOk result (λ w. w ≡ reopened again.kept again.last again.at again.len inst version answers.now) }
{
    match comes_of(again.kept.stamp, version.stamp) {
        Opened::Held => reads_again(inst, again.at, again.len, answers),
        Opened::Other => {
            let why = Refusal::Stale { epoch: again.last };
            give_up(&[inst], &why, answers)
        }
    }
}

fn reads_again(inst: Serial, at: u32, len: u16, answers: &[Answer]) -> Result<Want, NoMemory>
    ensures { IfOk result (λ w. w ≡ reads_again inst at len answers.now) }
{
    match answers {
        [] => Ok(Want::Do {
            inst,
            op: Op::Read { at, len },
        }),
        [Answer::Did { result }] => {
            let reply = reply_to(result)?;
            Ok(Want::Give { reply })
        }
        [Answer::Refused { why }, answers @ ..] => give_up(&[inst], why, answers),
        _ => Ok(Want::Never),
    }
}
