ghost use Rattle.std.specs.Prelude.{◌≡◌, ◌≤◌, [], ◌++◌, length, take, IfOk, OnOk};

use call_rules::Answer;
use call_scripts::Script;
use locus_ids::NoMemory;
use std::alloc::Global;
use trace_book::{Beginning, Call};

/// The script of a call that began so, once so many of its requests were answered.
pub(crate) fn script_after(
    alloc: Global,
    words: &Call,
    begins: &Beginning,
    answers: &[Answer],
) -> Result<Script, NoMemory>
    ensures { IfOk result (λ s. s ≡ record { words = words.now; begins = begins.now; answers = answers.now }) }
{
    let mut script = script_of(alloc, words, begins)?;
    answer_all(answers, &mut script)?;
    Ok(script)
}

/// The script of a call that began so, before anything is answered.
fn script_of(alloc: Global, words: &Call, begins: &Beginning) -> Result<Script, NoMemory>
    ensures { IfOk result (λ s. s ≡ record { words = words.now; begins = begins.now; answers = [] }) }
{
    let begins = copy_of_beginning(begins)?;
    let words = words.copy()?;
    Script::start(alloc, words, begins)
}

/// The script is given these answers, which are copied. It is the caller's, so that the loop drops none.
fn answer_all(answers: &[Answer], script: &mut Script) -> Result<(), NoMemory>
    ensures { OnOk result (script.new ≡ record script.old { answers = script.old.answers ++ answers.now }) }
{
    for answer in answers {
        let answer = copy_of_answer(answer)?;
        script.answer(answer)?;
    }
    Ok(())
}

fn copy_of_beginning(begins: &Beginning) -> Result<Beginning, NoMemory>
    ensures { IfOk result (λ made. made ≡ begins.now) }
{
    match begins {
        Beginning::Denied { why } => {
            let why = why.copy()?;
            Ok(Beginning::Denied { why })
        }
        Beginning::Uses { epoch, inst } => Ok(Beginning::Uses {
            epoch: *epoch,
            inst: *inst,
        }),
        Beginning::Walks { call } => Ok(Beginning::Walks { call: *call }),
        Beginning::Reopens { version, last } => Ok(Beginning::Reopens {
            version: *version,
            last: *last,
        }),
        Beginning::Frees => Ok(Beginning::Frees),
    }
}

fn copy_of_answer(answer: &Answer) -> Result<Answer, NoMemory>
    ensures { IfOk result (λ made. made ≡ answer.now) }
{
    match answer {
        Answer::Entered { ino, kind } => Ok(Answer::Entered {
            ino: *ino,
            kind: *kind,
        }),
        Answer::Showed { names } => {
            let names = names.copy()?;
            Ok(Answer::Showed { names })
        }
        Answer::Described { kind, size, stamp } => Ok(Answer::Described {
            kind: *kind,
            size: *size,
            stamp: *stamp,
        }),
        Answer::Brought => Ok(Answer::Brought),
        Answer::Opened { inst, ino } => Ok(Answer::Opened {
            inst: *inst,
            ino: *ino,
        }),
        Answer::Reading { inst, version } => Ok(Answer::Reading {
            inst: *inst,
            version: *version,
        }),
        Answer::Merging { inst, kept } => {
            let kept = kept.copy()?;
            Ok(Answer::Merging { inst: *inst, kept })
        }
        Answer::Did { result } => {
            let result = result.copy()?;
            Ok(Answer::Did { result })
        }
        Answer::Ended { stamp } => Ok(Answer::Ended { stamp: *stamp }),
        Answer::Refused { why } => {
            let why = why.copy()?;
            Ok(Answer::Refused { why })
        }
    }
}
