// What a call or an operation is answered, as text at the end.
ghost use Rattle.std.specs.Prelude.{◌≡◌, ℕ, List, ◌++◌, codes, OnOk};
ghost use Rattle.locus_ids.specs.declared.refusal.Refusal.TheVariants.{Conflict};
ghost use Rattle.trace_book.specs.declared.operation.Outcome.TheVariants.{Found};
ghost use Rattle.trace_book.specs.declared.reply.Reply.TheVariants.{Stat};
ghost use Rattle.trace_book.specs.Text.{names_text, outcome_text, refusal_text, reply_text, served_text};

use crate::lists::push_names;
use crate::phrases::{
    push_next_file, push_next_number, push_next_stamp, push_word_epoch, push_word_hex,
    push_word_number, push_word_numbers, push_word_stamp, push_word_text,
};
use crate::pieces::{push_kind, push_stamp};
use locus_ids::{Bytes, FileId, Kind, Names, NoMemory, Refusal, Stamp};
use trace_book::{Outcome, Reply, Served};

/// Adds the text of a refusal.
pub fn push_refusal(out: &mut Bytes, why: &Refusal) -> Result<(), NoMemory>
    ensures { OnOk result (out.new ≡ out.old ++ refusal_text why.now) }
{
    match why {
        Refusal::Busy { site, process } => {
            push_word_numbers(out, b"busy ", *site as u32, *process as u32)
        }
        Refusal::Absent { name } => push_word_text(out, b"absent ", name),
        Refusal::NotDir { name } => push_word_text(out, b"notdir ", name),
        Refusal::IsDir => out.append(b"isdir"),
        Refusal::Exists { ino } => push_word_number(out, b"exists ", *ino as u32),
        Refusal::NotEmpty { name } => push_word_text(out, b"notempty ", name),
        Refusal::Conflict { a, b } => push_conflict(out, *a, *b),
        Refusal::Ambiguous { a, b } => {
            push_word_numbers(out, b"ambiguous ", *a as u32, *b as u32)
        }
        Refusal::NoStorage => out.append(b"nostorage"),
        Refusal::NoPartition => out.append(b"nopartition"),
        Refusal::Changed { epoch } => push_word_epoch(out, b"changed ", *epoch),
        Refusal::BadDescriptor => out.append(b"baddescriptor"),
        Refusal::Stale { epoch } => push_word_epoch(out, b"stale ", *epoch),
        Refusal::TooLong => out.append(b"toolong"),
        Refusal::NoSpace { needed, free } => {
            push_word_numbers(out, b"nospace ", *needed as u32, *free as u32)
        }
        Refusal::NoInode => out.append(b"noinode"),
        Refusal::BadName => out.append(b"badname"),
        Refusal::ReadOnly => out.append(b"readonly"),
        Refusal::NoDescriptor => out.append(b"nodescriptor"),
        Refusal::Spent => out.append(b"spent"),
        Refusal::NoConflict => out.append(b"noconflict"),
    }
}

fn push_conflict(out: &mut Bytes, a: Stamp, b: Stamp) -> Result<(), NoMemory>
    ensures { OnOk result (out.new ≡ out.old ++ refusal_text (Conflict a b)) }
{
    push_word_stamp(out, b"conflict ", a)?;
    push_next_stamp(out, b)
}

/// Adds the text of an outcome.
pub fn push_outcome(out: &mut Bytes, outcome: &Outcome) -> Result<(), NoMemory>
    ensures { OnOk result (out.new ≡ out.old ++ outcome_text outcome.now) }
{
    match outcome {
        Outcome::Done => out.append(b"ok"),
        Outcome::Found { ino, kind } => push_found(out, *ino, *kind),
        Outcome::Data { bytes } => push_word_hex(out, b"ok ", bytes),
        Outcome::Committed { stamp } => push_word_stamp(out, b"ok ", *stamp),
        Outcome::No { why } => push_refusal(out, why),
    }
}

fn push_found(out: &mut Bytes, ino: u16, kind: Kind) -> Result<(), NoMemory>
    ensures { OnOk result (out.new ≡ out.old ++ outcome_text (Found ino kind)) }
{
    push_word_number(out, b"ok ", ino as u32)?;
    out.push(b' ')?;
    push_kind(out, kind)
}

pub fn push_served(out: &mut Bytes, served: &Served) -> Result<(), NoMemory>
    ensures { OnOk result (out.new ≡ out.old ++ served_text served.now) }
{
    match served {
        Served::At { stamp } => push_stamp(out, *stamp),
        Served::No { why } => push_refusal(out, why),
    }
}

/// Adds the text of a reply.
pub fn push_reply(out: &mut Bytes, reply: &Reply) -> Result<(), NoMemory>
    ensures { OnOk result (out.new ≡ out.old ++ reply_text reply.now) }
{
    match reply {
        Reply::Made { ino } => push_word_number(out, b"ok ", *ino as u32),
        Reply::Done => out.append(b"ok"),
        Reply::Names { names } => push_name_list(out, names),
        Reply::Stat {
            kind,
            file,
            size,
            stamp,
        } => push_stat(out, *kind, *file, *size, *stamp),
        Reply::Opened { fd } => push_word_number(out, b"ok ", *fd as u32),
        Reply::Data { bytes } => push_word_hex(out, b"ok ", bytes),
        Reply::Committed { stamp } => push_word_stamp(out, b"ok ", *stamp),
        Reply::Closed { stamp: None } => out.append(b"ok"),
        Reply::Closed { stamp: Some(stamp) } => push_word_stamp(out, b"ok ", *stamp),
        Reply::No { why } => push_refusal(out, why),
    }
}

fn push_name_list(out: &mut Bytes, names: &Names) -> Result<(), NoMemory>
    ensures { OnOk result (out.new ≡ out.old ++ (codes "ok" ++ names_text names.now)) }
{
    out.append(b"ok")?;
    push_names(out, names.as_slice())
}

fn push_stat(
    out: &mut Bytes,
    kind: Kind,
    file: FileId,
    size: u32,
    stamp: Stamp,
) -> Result<(), NoMemory>
    ensures { OnOk result (out.new ≡ out.old ++ reply_text (Stat kind file size stamp)) }
{
    out.append(b"ok ")?;
    push_kind(out, kind)?;
    push_next_file(out, file)?;
    push_next_number(out, size)?;
    push_next_stamp(out, stamp)
}
