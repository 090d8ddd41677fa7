//! What a call is answered by a grant, by an operation and by a release.

ghost use Rattle.std.specs.Prelude.{◌≡◌, List, IfOk};
ghost use Rattle.locus_ids.specs.declared.ids.Mode.TheVariants as mode;
ghost use Rattle.locus_ids.specs.declared.ids.Stamp.{Stamp};
ghost use Rattle.lawful_trace.specs.Progress.{granted_answer, outcome_answer};
ghost use Rattle.audit_tree.specs.Acting.{closed_answer};

use call_rules::Answer;
use locus_ids::{FileId, Mode, NoMemory, Refusal, Serial, Stamp, Stamps};
use operation_effects::OpenWork;
use trace_book::{OneVersion, Outcome};

/// A granted open tells the instance, one to read its version too, and one to mend the kept versions.
pub fn granted_answer(
    mode: Mode,
    inst: Serial,
    file: FileId,
    stamp: Option<Stamp>,
    kept: Stamps,
) -> Answer
    ensures { result ≡ granted_answer mode inst file stamp kept }
{
    match mode {
        Mode::Mend => Answer::Merging { inst, kept },
        Mode::Read => reading_answer(inst, file, stamp),
        Mode::Write | Mode::Resolve | Mode::Make => Answer::Opened {
            inst,
            ino: file.ino,
        },
    }
}

/// An open to read tells its version.
pub fn reading_answer(inst: Serial, file: FileId, stamp: Option<Stamp>) -> Answer
    ensures { (kept : List Stamp) → result ≡ granted_answer mode.Read inst file stamp kept }
{
    match stamp {
        Some(stamp) => {
            let version = OneVersion { file, stamp };
            Answer::Reading { inst, version }
        }
        None => Answer::Opened {
            inst,
            ino: file.ino,
        },
    }
}

/// What an operation gave.
pub fn outcome_answer(outcome: &Outcome) -> Result<Answer, NoMemory>
    ensures { IfOk result (λ answer. answer ≡ outcome_answer outcome.now) }
{
    match outcome {
        Outcome::No { why } => {
            let why = why.copy()?;
            Ok(Answer::Refused { why })
        }
        _ => {
            let result = outcome.copy()?;
            Ok(Answer::Did { result })
        }
    }
}

/// A close tells the version that it made, the one committed since the last operation; where a commit is owed still, it is
/// refused.
pub fn close_answer(stamp: Option<Stamp>, work: &OpenWork) -> Answer
    ensures { result ≡ closed_answer stamp work.now }
{
    if work.owes {
        return Answer::Refused {
            why: Refusal::Spent,
        };
    }
    let stamp = if work.fresh { stamp } else { None };
    Answer::Ended { stamp }
}
