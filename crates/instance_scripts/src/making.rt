ghost use Rattle.std.specs.Prelude.{◌≡◌, ◌∷◌, [], ℕ, List, IfOk};
ghost use Rattle.trace_book.specs.declared.reply.Reply.{Reply};
ghost use Rattle.call_rules.specs.Making.{after_insert, after_make, after_probe, fills, probes};
ghost use Rattle.instance_scripts.specs.Telling.{tells};

use crate::closing::{close_all, give_up};
use call_rules::{Answer, Want};
use locus_ids::{Bytes, Kind, Names, NoMemory, Serial, Sites};
use std::alloc::Global;
use trace_book::{Op, Reply};

/// A file or directory that a call makes: its group, its name, its kind, the sites that it is for, the bytes that it begins with, and
/// whether the reply tells its name, as that of a message, or its number.
#[derive(Clone, Copy)]
pub struct NewFile<'a> {
    pub group: u8,
    pub name: &'a [u8],
    pub kind: Kind,
    pub sites: Option<Sites>,
    pub bytes: &'a [u8],
    pub is_message: bool,
}

/// What the reply tells of the new file.
fn told(alloc: Global, new: NewFile, ino: u16) -> Result<Reply, NoMemory>
    ensures { IfOk result (λ r. r ≡ tells new.entry.is_message new.entry.name.now ino) }
{
    if !new.is_message {
        return Ok(Reply::Made { ino });
    }
    let mut names = Names::new(alloc);
    let name = Bytes::from_slice(alloc, new.name)?;
    names.push(name)?;
    Ok(Reply::Names { names })
}

/// The directory is open: the name is probed first.
pub fn probes(
    alloc: Global,
    dir: Serial,
    new: NewFile,
    answers: &[Answer],
) -> Result<Want, NoMemory>
    ensures { IfOk result (λ w. w ≡ probes dir new.entry.group new.entry.name.now new.entry.kind new.entry.sites new.entry.bytes.now (tells new.entry.is_message new.entry.name.now) answers.now) }
{
    match answers {
        [] => {
            let name = Bytes::from_slice(alloc, new.name)?;
            Ok(Want::Do {
                inst: dir,
                op: Op::Probe { name },
            })
        }
        [Answer::Did { .. }, answers @ ..] => after_probe(alloc, dir, new, answers),
        [Answer::Refused { why }, answers @ ..] => give_up(&[dir], why, answers),
        _ => Ok(Want::Never),
    }
}

/// The name is free: the file is made.
fn after_probe(
    alloc: Global,
    dir: Serial,
    new: NewFile,
    answers: &[Answer],
) -> Result<Want, NoMemory>
    ensures { IfOk result (λ w. w ≡ after_probe dir new.entry.group new.entry.name.now new.entry.kind new.entry.sites new.entry.bytes.now (tells new.entry.is_message new.entry.name.now) answers.now) }
{
    match answers {
        [] => Ok(Want::Make {
            group: new.group,
            kind: new.kind,
            sites: new.sites,
        }),
        [Answer::Opened { inst, ino }, answers @ ..] => {
            let made = Made {
                inst: *inst,
                ino: *ino,
            };
            fills(alloc, dir, new, made, answers)
        }
        [Answer::Refused { why }, answers @ ..] => give_up(&[dir], why, answers),
        _ => Ok(Want::Never),
    }
}

/// A made file, as it is open.
#[derive(Clone, Copy)]
struct Made {
    inst: Serial,
    ino: u16,
}

/// The file is made: it is written first, where it begins with some bytes.
fn fills(
    alloc: Global,
    dir: Serial,
    new: NewFile,
    made: Made,
    answers: &[Answer],
) -> Result<Want, NoMemory>
    ensures { IfOk result (λ w. w ≡ fills dir new.entry.name.now new.entry.kind new.entry.bytes.now made.inst made.ino (tells new.entry.is_message new.entry.name.now made.ino) answers.now) }
{
    if new.bytes.is_empty() {
        return after_make(alloc, dir, new, made, answers);
    }
    match answers {
        [] => {
            let bytes = Bytes::from_slice(alloc, new.bytes)?;
            Ok(Want::Do {
                inst: made.inst,
                op: Op::Write { at: 0, bytes },
            })
        }
        [Answer::Did { .. }, answers @ ..] => after_make(alloc, dir, new, made, answers),
        [Answer::Refused { why }, answers @ ..] => give_up(&[made.inst, dir], why, answers),
        _ => Ok(Want::Never),
    }
}

/// The file is as it begins: it is closed.
fn after_make(
    alloc: Global,
    dir: Serial,
    new: NewFile,
    made: Made,
    answers: &[Answer],
) -> Result<Want, NoMemory>
    ensures { IfOk result (λ w. w ≡ after_make dir new.entry.name.now new.entry.kind made.inst made.ino (tells new.entry.is_message new.entry.name.now made.ino) answers.now) }
{
    match answers {
        [] => Ok(Want::Close { inst: made.inst }),
        [Answer::Ended { .. }, answers @ ..] => { after_insert(alloc, dir, new, made.ino, answers) }
        [Answer::Refused { why }, answers @ ..] => give_up(&[dir], why, answers),
        _ => Ok(Want::Never),
    }
}

/// The file is closed: its entry is inserted, and the directory is closed.
fn after_insert(
    alloc: Global,
    dir: Serial,
    new: NewFile,
    ino: u16,
    answers: &[Answer],
) -> Result<Want, NoMemory>
    ensures { IfOk result (λ w. w ≡ after_insert dir new.entry.name.now new.entry.kind ino (tells new.entry.is_message new.entry.name.now ino) answers.now) }
{
    match answers {
        [] => {
            let name = Bytes::from_slice(alloc, new.name)?;
            let op = Op::Insert {
                name,
                ino,
                kind: new.kind,
            };
            Ok(Want::Do { inst: dir, op })
        }
        [Answer::Did { .. }, answers @ ..] => {
            let reply = told(alloc, new, ino)?;
            close_all(&[dir], reply, answers)
        }
        [Answer::Refused { why }, answers @ ..] => give_up(&[dir], why, answers),
        _ => Ok(Want::Never),
    }
}
