ghost use Rattle.std.specs.Prelude.{◌≡◌, ◌∷◌, [], List, IfOk};
ghost use Rattle.call_rules.specs.Mending.{after_mend, brings, mend_wants};

use crate::closing::give_up;
use crate::using::close_wants;
use call_rules::{Answer, Want};
use locus_ids::{FileId, NoMemory, Serial, Stamp};
use trace_book::{Op, Reply, What};

/// A directory is opened to be mended, the whole of each kept version is brought, and it is mended and closed.
pub fn mend_wants(file: FileId, answers: &[Answer]) -> Result<Want, NoMemory>
    ensures { IfOk result (λ w. w ≡ mend_wants file answers.now) }
{
    match answers {
        [] => Ok(Want::OpenToMend { file }),
        [Answer::Merging { inst, kept }, answers @ ..] => {
            brings(*inst, file, kept.as_slice(), answers)
        }
        [Answer::Refused { why }] => {
            let why = why.copy()?;
            Ok(Want::Give {
                reply: Reply::No { why },
            })
        }
        _ => Ok(Want::Never),
    }
}

/// The versions are brought, in the order of their stamps.
fn brings(inst: Serial, file: FileId, kept: &[Stamp], answers: &[Answer]) -> Result<Want, NoMemory>
    ensures { IfOk result (λ w. w ≡ brings inst file kept.now answers.now) }
{
    let [stamp, kept @ ..] = kept else {
        return after_mend(inst, answers);
    };
    match answers {
        [] => Ok(Want::Look {
            file,
            what: What::Whole { stamp: *stamp },
        }),
        [Answer::Brought { .. }, answers @ ..] => brings(inst, file, kept, answers),
        [Answer::Refused { why }, answers @ ..] => give_up(&[inst], why, answers),
        _ => Ok(Want::Never),
    }
}

/// All versions are there: they are merged.
fn after_mend(inst: Serial, answers: &[Answer]) -> Result<Want, NoMemory>
    ensures { IfOk result (λ w. w ≡ after_mend inst answers.now) }
{
    match answers {
        [] => Ok(Want::Do { inst, op: Op::Mend }),
        [Answer::Did { .. }, answers @ ..] => close_wants(inst, answers),
        [Answer::Refused { why }, answers @ ..] => give_up(&[inst], why, answers),
        _ => Ok(Want::Never),
    }
}
