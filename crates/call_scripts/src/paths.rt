ghost use Rattle.std.specs.Prelude.{◌≡◌, ℕ, ◌∷◌, [], List, IfOk};
ghost use Rattle.locus_ids.specs.declared.ids.Kind.TheVariants as kind;
ghost use Rattle.locus_ids.specs.declared.ids.Serial.{Serial};
ghost use Rattle.trace_book.specs.Names.{components, last_of};
ghost use Rattle.call_rules.specs.declared.answer.Answer.{Answer};
ghost use Rattle.call_rules.specs.Making.{make_wants};
ghost use Rattle.call_rules.specs.Removing.{remove_wants};
ghost use Rattle.call_rules.specs.Naming.{rename_wants};
ghost use Rattle.call_rules.specs.Opening.{describes, lists, opens_file, shown_in};
ghost use Rattle.call_rules.specs.Mailing.{shown_messages};
ghost use Rattle.call_rules.specs.Walks.{walked};
ghost use Rattle.call_scripts.specs.Reaches.{mails_to};

use crate::opening::{describes, lists, lists_messages, opens_file};
use crate::reaching::{Opened, Reached, open_dir, open_whole, reach};
use call_rules::{Answer, Want};
use instance_scripts::{Entry, NewFile, finds, probes, renames};
use locus_ids::{Bytes, Kind, Mount, NoMemory, Sites};
use path_walk::last_of;
use std::alloc::Global;
use trace_book::OpenMode;

/// A message: its name and its bytes.
#[derive(Clone, Copy)]
pub(crate) struct Message<'a> {
    pub(crate) name: &'a [u8],
    pub(crate) bytes: &'a [u8],
}

/// What a create or a mkdir asks.
pub(crate) fn make_wants(
    alloc: Global,
    mounts: &[Mount],
    path: &[u8],
    names: &[Bytes],
    kind: Kind,
    sites: Option<Sites>,
    answers: &[Answer],
) -> Result<Want, NoMemory>
    requires { names.now ≡ components path.now }
    ensures { IfOk result (λ w. w ≡ make_wants mounts.now path.now kind sites answers.now) }
{
    match open_dir(alloc, mounts, path, names, answers)? {
        Opened::Wants { want } => Ok(want),
        Opened::Open {
            group,
            dir,
            answers,
        } => {
            let new = NewFile {
                group,
                name: last_of(names),
                kind,
                sites,
                bytes: &[],
                is_message: false,
            };
            probes(alloc, dir, new, answers)
        }
    }
}

/// What an unlink or a rmdir asks.
pub(crate) fn remove_wants(
    alloc: Global,
    mounts: &[Mount],
    path: &[u8],
    names: &[Bytes],
    kind: Kind,
    answers: &[Answer],
) -> Result<Want, NoMemory>
    requires { names.now ≡ components path.now }
    ensures { IfOk result (λ w. w ≡ remove_wants mounts.now path.now kind answers.now) }
{
    match open_dir(alloc, mounts, path, names, answers)? {
        Opened::Wants { want } => Ok(want),
        Opened::Open {
            group,
            dir,
            answers,
        } => {
            let entry = Entry {
                dir,
                group,
                component: last_of(names),
            };
            finds(alloc, kind, entry, answers)
        }
    }
}

/// What a rename asks.
pub(crate) fn rename_wants(
    alloc: Global,
    mounts: &[Mount],
    path: &[u8],
    names: &[Bytes],
    name: &[u8],
    answers: &[Answer],
) -> Result<Want, NoMemory>
    requires { names.now ≡ components path.now }
    ensures { IfOk result (λ w. w ≡ rename_wants mounts.now path.now name.now answers.now) }
{
    match open_dir(alloc, mounts, path, names, answers)? {
        Opened::Wants { want } => Ok(want),
        Opened::Open {
            group: _,
            dir,
            answers,
        } => renames(alloc, dir, last_of(names), name, answers),
    }
}

/// What a list asks.
pub(crate) fn list_wants(
    alloc: Global,
    mounts: &[Mount],
    names: &[Bytes],
    answers: &[Answer],
) -> Result<Want, NoMemory>
    ensures { IfOk result (λ w. w ≡ walked mounts.now names.now answers.now (lists (shown_in mounts.now) (last_of names.now))) }
{
    match reach(alloc, mounts, names, answers)? {
        Reached::Wants { want } => Ok(want),
        Reached::There {
            file,
            kind,
            answers,
        } => lists(alloc, mounts, last_of(names), file, kind, answers),
    }
}

/// What a stat asks.
pub(crate) fn stat_wants(
    alloc: Global,
    mounts: &[Mount],
    names: &[Bytes],
    answers: &[Answer],
) -> Result<Want, NoMemory>
    ensures { IfOk result (λ w. w ≡ walked mounts.now names.now answers.now describes) }
{
    match reach(alloc, mounts, names, answers)? {
        Reached::Wants { want } => Ok(want),
        Reached::There {
            file,
            kind,
            answers,
        } => describes(file, kind, answers),
    }
}

/// What an open asks.
pub(crate) fn open_wants(
    alloc: Global,
    mounts: &[Mount],
    names: &[Bytes],
    mode: OpenMode,
    free: Option<u16>,
    answers: &[Answer],
) -> Result<Want, NoMemory>
    ensures { IfOk result (λ w. w ≡ walked mounts.now names.now answers.now (opens_file mode free)) }
{
    match reach(alloc, mounts, names, answers)? {
        Reached::Wants { want } => Ok(want),
        Reached::There {
            file,
            kind,
            answers,
        } => opens_file(mode, free, file, kind, answers),
    }
}

/// What a mail asks. `name` is the message's.
pub(crate) fn mail_wants(
    alloc: Global,
    mounts: &[Mount],
    names: &[Bytes],
    message: Message,
    answers: &[Answer],
) -> Result<Want, NoMemory>
    ensures { IfOk result (λ w. w ≡ mails_to mounts.now names.now message.entry.name.now message.entry.bytes.now answers.now) }
{
    match open_whole(alloc, mounts, names, answers)? {
        Opened::Wants { want } => Ok(want),
        Opened::Open {
            group,
            dir,
            answers,
        } => {
            let new = NewFile {
                group,
                name: message.name,
                kind: Kind::File,
                sites: None,
                bytes: message.bytes,
                is_message: true,
            };
            probes(alloc, dir, new, answers)
        }
    }
}

/// What a mails asks.
pub(crate) fn mails_wants(
    alloc: Global,
    mounts: &[Mount],
    names: &[Bytes],
    answers: &[Answer],
) -> Result<Want, NoMemory>
    ensures { IfOk result (λ w. w ≡ walked mounts.now names.now answers.now (lists shown_messages (last_of names.now))) }
{
    match reach(alloc, mounts, names, answers)? {
        Reached::Wants { want } => Ok(want),
        Reached::There {
            file,
            kind,
            answers,
        } => lists_messages(alloc, last_of(names), file, kind, answers),
    }
}
