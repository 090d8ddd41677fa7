ghost use Rattle.std.specs.Prelude.{◌≡◌, ◌∷◌, [], List, IfOk};
ghost use Rattle.trace_book.specs.Names.{plain_name};
ghost use Rattle.call_rules.specs.Removing.{by_kind, empties, finds, opens_target, removes};

use crate::closing::{close_all, give_up};
use call_rules::{Answer, Want};
use locus_ids::{Bytes, FileId, Kind, NoMemory, Refusal, Serial};
use path_walk::plain_name;
use std::alloc::Global;
use trace_book::{Op, OpenMode, Outcome, Reply};

/// An entry that a call removes: the open directory, its group, and the component that names the entry.
#[derive(Clone, Copy)]
pub struct Entry<'a> {
    pub dir: Serial,
    pub group: u8,
    pub component: &'a [u8],
}

/// The directory is open: what the component means there is found. A file is unlinked, a directory is removed.
pub fn finds(alloc: Global, kind: Kind, entry: Entry, answers: &[Answer]) -> Result<Want, NoMemory>
    ensures { IfOk result (λ w. w ≡ finds kind entry.entry.dir entry.entry.group entry.entry.component.now answers.now) }
{
    match answers {
        [] => {
            let component = Bytes::from_slice(alloc, entry.component)?;
            Ok(Want::Do {
                inst: entry.dir,
                op: Op::Find { component },
            })
        }
        [
            Answer::Did {
                result: Outcome::Found { ino, kind: found },
            },
            answers @ ..,
        ] => by_kind(alloc, kind, *found, entry, *ino, answers),
        [Answer::Refused { why }, answers @ ..] => give_up(&[entry.dir], why, answers),
        _ => Ok(Want::Never),
    }
}

/// By the kind that the call takes away, and the kind that was found.
fn by_kind(
    alloc: Global,
    kind: Kind,
    found: Kind,
    entry: Entry,
    ino: u16,
    answers: &[Answer],
) -> Result<Want, NoMemory>
    ensures { IfOk result (λ w. w ≡ by_kind kind found entry.entry.dir entry.entry.group entry.entry.component.now ino answers.now) }
{
    match kind {
        Kind::File => match found {
            Kind::File => opens_target(alloc, kind, entry, ino, answers),
            Kind::Dir => give_up(&[entry.dir], &Refusal::IsDir, answers),
        },
        Kind::Dir => match found {
            Kind::File => {
                let name = Bytes::from_slice(alloc, entry.component)?;
                give_up(&[entry.dir], &Refusal::NotDir { name }, answers)
            }
            Kind::Dir => opens_target(alloc, kind, entry, ino, answers),
        },
    }
}

/// What the entry names is opened.
fn opens_target(
    alloc: Global,
    kind: Kind,
    entry: Entry,
    ino: u16,
    answers: &[Answer],
) -> Result<Want, NoMemory>
    ensures { IfOk result (λ w. w ≡ opens_target kind entry.entry.dir entry.entry.group (plain_name entry.entry.component.now) ino answers.now) }
{
    match answers {
        [] => Ok(Want::Open {
            file: FileId {
                group: entry.group,
                ino,
            },
            mode: OpenMode::Write,
        }),
        [Answer::Opened { inst, ino: _ }, answers @ ..] => {
            empties(alloc, kind, entry, *inst, ino, answers)
        }
        [Answer::Refused { why }, answers @ ..] => give_up(&[entry.dir], why, answers),
        _ => Ok(Want::Never),
    }
}

/// A directory to remove shows no name.
fn empties(
    alloc: Global,
    kind: Kind,
    entry: Entry,
    target: Serial,
    ino: u16,
    answers: &[Answer],
) -> Result<Want, NoMemory>
    ensures { IfOk result (λ w. w ≡ empties kind entry.entry.dir target (plain_name entry.entry.component.now) ino answers.now) }
{
    if let Kind::File = kind {
        return removes(alloc, entry, target, ino, answers);
    }
    match answers {
        [] => Ok(Want::Do {
            inst: target,
            op: Op::Empty,
        }),
        [Answer::Did { .. }, answers @ ..] => removes(alloc, entry, target, ino, answers),
        [Answer::Refused { why }, answers @ ..] => give_up(&[entry.dir, target], why, answers),
        _ => Ok(Want::Never),
    }
}

/// The entry is removed, and both instances are closed.
fn removes(
    alloc: Global,
    entry: Entry,
    target: Serial,
    ino: u16,
    answers: &[Answer],
) -> Result<Want, NoMemory>
    ensures { IfOk result (λ w. w ≡ removes entry.entry.dir target (plain_name entry.entry.component.now) ino answers.now) }
{
    match answers {
        [] => {
            let name = Bytes::from_slice(alloc, plain_name(entry.component))?;
            Ok(Want::Do {
                inst: entry.dir,
                op: Op::Remove { name, ino },
            })
        }
        [Answer::Did { .. }, answers @ ..] => {
            close_all(&[entry.dir, target], Reply::Done, answers)
        }
        [Answer::Refused { why }, answers @ ..] => give_up(&[entry.dir, target], why, answers),
        _ => Ok(Want::Never),
    }
}
