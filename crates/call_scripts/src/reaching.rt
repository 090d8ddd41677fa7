ghost use Rattle.std.specs.Prelude.{◌≡◌, ℕ, List, IfOk};
ghost use Rattle.locus_ids.specs.declared.ids.FileId.{FileId};
ghost use Rattle.locus_ids.specs.declared.ids.Kind.{Kind};
ghost use Rattle.locus_ids.specs.declared.ids.Serial.{Serial};
ghost use Rattle.trace_book.specs.Names.{components, last_of};
ghost use Rattle.call_rules.specs.declared.answer.Answer.{Answer};
ghost use Rattle.call_rules.specs.declared.want.Want.{Want};
ghost use Rattle.call_rules.specs.Walks.{walked};
ghost use Rattle.call_rules.specs.Making.{changes_dir, opens_dir};
ghost use Rattle.call_scripts.specs.Reaches.{after_opening, after_walk};

use call_rules::{Answer, Want};
use locus_ids::{Bytes, FileId, Kind, Mount, NoMemory, Refusal, Serial};
use path_walk::{Walked, last_of, walk, without_last};
use std::alloc::Global;
use trace_book::{OpenMode, Reply, What};

/// What a walk asks, or the file that it has led to with the answers that are left.
#[derive(Drop)]
pub(crate) enum Reached<'a> {
    Wants {
        want: Want,
    },
    There {
        file: FileId,
        kind: Kind,
        answers: &'a [Answer],
    },
}

/// What a walk and the open of the directory ask, or the open directory with the answers that are left.
#[derive(Drop)]
pub(crate) enum Opened<'a> {
    Wants {
        want: Want,
    },
    Open {
        group: u8,
        dir: Serial,
        answers: &'a [Answer],
    },
}

/// A walk along components.
pub(crate) fn reach<'a>(
    alloc: Global,
    mounts: &[Mount],
    names: &'a [Bytes],
    answers: &'a [Answer],
) -> Result<Reached<'a>, NoMemory>
    ensures { (after : FileId → Kind → List Answer → Want) → IfOk result (λ r. after_walk after r ≡ walked mounts.now names.now answers.now after) }
{
    match walk(mounts, names, answers)? {
        Walked::Asks { dir, name } => {
            let component = Bytes::from_slice(alloc, name)?;
            let what = What::Name { component };
            Ok(Reached::Wants {
                want: Want::Look { file: dir, what },
            })
        }
        Walked::Fails { why } => Ok(Reached::Wants {
            want: Want::Give {
                reply: Reply::No { why },
            },
        }),
        Walked::There {
            file,
            kind,
            answers,
        } => Ok(Reached::There {
            file,
            kind,
            answers,
        }),
        Walked::Strays => Ok(Reached::Wants { want: Want::Never }),
    }
}

/// A walk of all components, and the open of the directory that it reaches.
pub(crate) fn open_whole<'a>(
    alloc: Global,
    mounts: &[Mount],
    names: &'a [Bytes],
    answers: &'a [Answer],
) -> Result<Opened<'a>, NoMemory>
    ensures { (next : ℕ → Serial → List Answer → Want) → IfOk result (λ r. after_opening next r ≡ walked mounts.now names.now answers.now (λ dir kind rest. opens_dir (last_of names.now) (next dir.group) dir kind rest)) }
{
    match reach(alloc, mounts, names, answers)? {
        Reached::Wants { want } => Ok(Opened::Wants { want }),
        Reached::There {
            file,
            kind,
            answers,
        } => {
            let opened = open_reached(alloc, last_of(names), file, kind, answers)?;
            Ok(opened)
        }
    }
}

/// A walk of all components but the last, and the open of the directory that it reaches.
pub(crate) fn open_dir<'a>(
    alloc: Global,
    mounts: &[Mount],
    path: &[u8],
    names: &'a [Bytes],
    answers: &'a [Answer],
) -> Result<Opened<'a>, NoMemory>
    requires { names.now ≡ components path.now }
    ensures { (next : ℕ → Serial → List Answer → Want) → IfOk result (λ r. after_opening next r ≡ changes_dir mounts.now path.now next answers.now) }
{
    let front = without_last(names);
    match reach(alloc, mounts, front, answers)? {
        Reached::Wants { want } => Ok(Opened::Wants { want }),
        Reached::There {
            file,
            kind,
            answers,
        } => {
            let opened = open_reached(alloc, last_of(front), file, kind, answers)?;
            Ok(opened)
        }
    }
}

/// The open of the directory that a walk has reached.
fn open_reached<'a>(
    alloc: Global,
    reached: &[u8],
    dir: FileId,
    kind: Kind,
    answers: &'a [Answer],
) -> Result<Opened<'a>, NoMemory>
    ensures { (next : ℕ → Serial → List Answer → Want) → IfOk result (λ r. after_opening next r ≡ opens_dir reached.now (next dir.group) dir kind answers.now) }
{
    if let Kind::File = kind {
        let name = Bytes::from_slice(alloc, reached)?;
        return Ok(Opened::Wants {
            want: Want::Give {
                reply: Reply::No {
                    why: Refusal::NotDir { name },
                },
            },
        });
    }
    match answers {
        [] => Ok(Opened::Wants {
            want: Want::Open {
                file: dir,
                mode: OpenMode::Write,
            },
        }),
        [Answer::Opened { inst, ino: _ }, answers @ ..] => Ok(Opened::Open {
            group: dir.group,
            dir: *inst,
            answers,
        }),
        [Answer::Refused { why }, ..] => {
            let why = why.copy()?;
            Ok(Opened::Wants {
                want: Want::Give {
                    reply: Reply::No { why },
                },
            })
        }
        _ => Ok(Opened::Wants { want: Want::Never }),
    }
}
