// What is asked, as text at the end.
ghost use Rattle.std.specs.Prelude.{◌≡◌, ℕ, List, ◌++◌, codes, OnOk};
ghost use Rattle.trace_book.specs.Text.{call_words, gap, hex_text, kind_text, number, op_text, opening_text, packet_kind_text, sites_text, what_text};

use crate::lists::push_sites;
use crate::phrases::{
    push_next_hex, push_next_number, push_word_file, push_word_number, push_word_numbers,
    push_word_text, push_word_texts,
};
use crate::pieces::{push_kind, push_opening};
use locus_ids::{Bytes, Kind, NoMemory, Sites};
use trace_book::{Call, Op, OpenMode, PacketKind, What};

pub fn push_call_words(out: &mut Bytes, call: &Call) -> Result<(), NoMemory>
    ensures { OnOk result (out.new ≡ out.old ++ call_words call.now) }
{
    match call {
        Call::Create { path, sites: None } => push_word_text(out, b"create ", path),
        Call::Create {
            path,
            sites: Some(sites),
        } => push_create(out, path, *sites),
        Call::MakeDir { path } => push_word_text(out, b"mkdir ", path),
        Call::Unlink { path } => push_word_text(out, b"unlink ", path),
        Call::RemoveDir { path } => push_word_text(out, b"rmdir ", path),
        Call::Rename { path, name } => push_word_texts(out, b"rename ", path, name),
        Call::List { path } => push_word_text(out, b"list ", path),
        Call::Stat { path } => push_word_text(out, b"stat ", path),
        Call::Mail { path, bytes } => push_mail(out, path, bytes),
        Call::Mails { path } => push_word_text(out, b"mails ", path),
        Call::Open { path, mode } => push_open(out, path, *mode),
        Call::Read { fd, at, len } => push_read(out, *fd, *at, *len),
        Call::Write { fd, at, bytes } => push_write(out, *fd, *at, bytes),
        Call::Cut { fd, len } => push_word_numbers(out, b"cut ", *fd as u32, *len),
        Call::Commit { fd } => push_word_number(out, b"commit ", *fd as u32),
        Call::Abort { fd } => push_word_number(out, b"abort ", *fd as u32),
        Call::Close { fd } => push_word_number(out, b"close ", *fd as u32),
        Call::Mend { file } => push_word_file(out, b"mend ", *file),
    }
}

fn push_create(out: &mut Bytes, path: &Bytes, sites: Sites) -> Result<(), NoMemory>
    ensures { OnOk result (out.new ≡ out.old ++ (codes "create " ++ path.now ++ gap ++ sites_text sites)) }
{
    push_word_text(out, b"create ", path)?;
    out.push(b' ')?;
    push_sites(out, sites)
}

fn push_mail(out: &mut Bytes, path: &Bytes, bytes: &Bytes) -> Result<(), NoMemory>
    ensures { OnOk result (out.new ≡ out.old ++ (codes "mail " ++ path.now ++ gap ++ hex_text bytes.now)) }
{
    push_word_text(out, b"mail ", path)?;
    push_next_hex(out, bytes)
}

fn push_open(out: &mut Bytes, path: &Bytes, mode: OpenMode) -> Result<(), NoMemory>
    ensures { OnOk result (out.new ≡ out.old ++ (codes "open " ++ path.now ++ gap ++ opening_text mode)) }
{
    push_word_text(out, b"open ", path)?;
    out.push(b' ')?;
    push_opening(out, mode)
}

fn push_read(out: &mut Bytes, fd: u16, at: u32, len: u16) -> Result<(), NoMemory>
    ensures { OnOk result (out.new ≡ out.old ++ (codes "read " ++ number fd ++ gap ++ number at ++ gap ++ number len)) }
{
    push_word_numbers(out, b"read ", fd as u32, at)?;
    push_next_number(out, len as u32)
}

fn push_write(out: &mut Bytes, fd: u16, at: u32, bytes: &Bytes) -> Result<(), NoMemory>
    ensures { OnOk result (out.new ≡ out.old ++ (codes "write " ++ number fd ++ gap ++ number at ++ gap ++ hex_text bytes.now)) }
{
    push_word_numbers(out, b"write ", fd as u32, at)?;
    push_next_hex(out, bytes)
}

/// Adds the text of an operation.
pub fn push_op(out: &mut Bytes, op: &Op) -> Result<(), NoMemory>
    ensures { OnOk result (out.new ≡ out.old ++ op_text op.now) }
{
    match op {
        Op::Probe { name } => push_word_text(out, b"probe ", name),
        Op::Find { component } => push_word_text(out, b"find ", component),
        Op::Insert { name, ino, kind } => push_insert(out, name, *ino, *kind),
        Op::Remove { name, ino } => push_remove(out, name, *ino),
        Op::Rename { component, name } => push_word_texts(out, b"rename ", component, name),
        Op::Empty => out.append(b"empty"),
        Op::Read { at, len } => push_word_numbers(out, b"read ", *at, *len as u32),
        Op::Write { at, bytes } => push_written(out, *at, bytes),
        Op::Cut { len } => push_word_number(out, b"cut ", *len),
        Op::Commit => out.append(b"commit"),
        Op::Abort => out.append(b"abort"),
        Op::Mend => out.append(b"mend"),
    }
}

fn push_insert(out: &mut Bytes, name: &Bytes, ino: u16, kind: Kind) -> Result<(), NoMemory>
    ensures { OnOk result (out.new ≡ out.old ++ (codes "insert " ++ name.now ++ gap ++ number ino ++ gap ++ kind_text kind)) }
{
    push_word_text(out, b"insert ", name)?;
    push_next_number(out, ino as u32)?;
    out.push(b' ')?;
    push_kind(out, kind)
}

fn push_remove(out: &mut Bytes, name: &Bytes, ino: u16) -> Result<(), NoMemory>
    ensures { OnOk result (out.new ≡ out.old ++ (codes "remove " ++ name.now ++ gap ++ number ino)) }
{
    push_word_text(out, b"remove ", name)?;
    push_next_number(out, ino as u32)
}

fn push_written(out: &mut Bytes, at: u32, bytes: &Bytes) -> Result<(), NoMemory>
    ensures { OnOk result (out.new ≡ out.old ++ (codes "write " ++ number at ++ gap ++ hex_text bytes.now)) }
{
    push_word_number(out, b"write ", at)?;
    push_next_hex(out, bytes)
}

pub fn push_what(out: &mut Bytes, what: &What) -> Result<(), NoMemory>
    ensures { OnOk result (out.new ≡ out.old ++ what_text what.now) }
{
    match what {
        What::Name { component } => push_word_text(out, b"name ", component),
        What::List => out.append(b"list"),
        What::Stat => out.append(b"stat"),
        What::Whole { stamp: _ } => out.append(b"whole"),
    }
}

pub fn push_packet_kind(out: &mut Bytes, kind: PacketKind) -> Result<(), NoMemory>
    ensures { OnOk result (out.new ≡ out.old ++ packet_kind_text kind) }
{
    out.append(packet_kind_word(kind))
}

fn packet_kind_word(kind: PacketKind) -> &'static [u8]
    ensures { result.now ≡ packet_kind_text kind }
{
    match kind {
        PacketKind::Poll => b"poll",
        PacketKind::Promise => b"promise",
        PacketKind::Refuse => b"refuse",
        PacketKind::Install => b"install",
        PacketKind::Joined => b"joined",
        PacketKind::Report => b"report",
        PacketKind::ReportOk => b"reportok",
        PacketKind::Open => b"open",
        PacketKind::OpenSs => b"openss",
        PacketKind::Opened => b"opened",
        PacketKind::OpenDone => b"opendone",
        PacketKind::Op => b"op",
        PacketKind::OpDone => b"opdone",
        PacketKind::Close => b"close",
        PacketKind::Closed => b"closed",
        PacketKind::ClosedOk => b"closedok",
        PacketKind::CloseDone => b"closedone",
        PacketKind::Look => b"look",
        PacketKind::LookSs => b"lookss",
        PacketKind::LookDone => b"lookdone",
        PacketKind::Notify => b"notify",
        PacketKind::Pull => b"pull",
        PacketKind::Page => b"page",
        PacketKind::Have => b"have",
        PacketKind::Want => b"want",
        PacketKind::Delta => b"delta",
    }
}
