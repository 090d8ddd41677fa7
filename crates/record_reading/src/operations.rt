// Operations of an instance, each with its result.
ghost use Rattle.std.specs.Prelude.{◌≡◌, IfOk};
ghost use Rattle.record_reading.specs.Requests.{act_in, act_with, content_act, cut_in, find_in, insert_in, place_in, probe_in, read_act_in, remove_in, rename_in, write_in};

use line_text::{hex_bytes, is_text, number, two_words};
use locus_ids::NoMemory;
use locus_ids::sizes::FILE_BYTES;
use record_words::answers::{bytes_read, committed, done, found};
use record_words::fields::{self, inode, short_number};
use record_words::lists;
use std::alloc::Global;
use trace_book::{Op, Outcome};

/// The operation that the words are, with its result.
pub(crate) fn act(alloc: Global, bytes: &[u8]) -> Result<Option<(Op, Outcome)>, NoMemory>
    ensures { IfOk result (λ o. o ≡ act_in bytes.now) }
{
    match two_words(bytes) {
        Some((word, rest)) => act_with(alloc, word, rest),
        None => Ok(None),
    }
}

/// The operation of this first word, and of what follows.
fn act_with(alloc: Global, word: &[u8], rest: &[u8]) -> Result<Option<(Op, Outcome)>, NoMemory>
    ensures { IfOk result (λ o. o ≡ act_with word.now rest.now) }
{
    if is_text(word, b"probe") {
        return probe(alloc, rest);
    }
    if is_text(word, b"find") {
        return find(alloc, rest);
    }
    if is_text(word, b"insert") {
        return insert(alloc, rest);
    }
    if is_text(word, b"remove") {
        return remove(alloc, rest);
    }
    if is_text(word, b"rename") {
        return rename(alloc, rest);
    }
    if is_text(word, b"empty") {
        return Ok(done(alloc, rest)?.map(|outcome| (Op::Empty, outcome)));
    }
    if is_text(word, b"mend") {
        return Ok(done(alloc, rest)?.map(|outcome| (Op::Mend, outcome)));
    }
    content_act(alloc, word, rest)
}

/// An operation on the content of a file.
fn content_act(alloc: Global, word: &[u8], rest: &[u8]) -> Result<Option<(Op, Outcome)>, NoMemory>
    ensures { IfOk result (λ o. o ≡ content_act word.now rest.now) }
{
    if is_text(word, b"read") {
        return read(alloc, rest);
    }
    if is_text(word, b"write") {
        return write(alloc, rest);
    }
    if is_text(word, b"cut") {
        return cut(alloc, rest);
    }
    if is_text(word, b"commit") {
        return Ok(committed(alloc, rest)?.map(|outcome| (Op::Commit, outcome)));
    }
    if is_text(word, b"abort") {
        return Ok(done(alloc, rest)?.map(|outcome| (Op::Abort, outcome)));
    }
    Ok(None)
}

/// A place in a file, or a length of one.
fn place(word: &[u8]) -> Option<u32>
    ensures { result ≡ place_in word.now }
{
    number(word, 0, FILE_BYTES as u32)
}

/// `NAME RESULT`.
fn probe(alloc: Global, rest: &[u8]) -> Result<Option<(Op, Outcome)>, NoMemory>
    ensures { IfOk result (λ o. o ≡ probe_in rest.now) }
{
    let Some((name, rest)) = two_words(rest) else {
        return Ok(None);
    };
    let Some(name) = lists::name(alloc, name)? else {
        return Ok(None);
    };
    let Some(outcome) = done(alloc, rest)? else {
        return Ok(None);
    };
    Ok(Some((Op::Probe { name }, outcome)))
}

/// `COMPONENT RESULT`.
fn find(alloc: Global, rest: &[u8]) -> Result<Option<(Op, Outcome)>, NoMemory>
    ensures { IfOk result (λ o. o ≡ find_in rest.now) }
{
    let Some((component, rest)) = two_words(rest) else {
        return Ok(None);
    };
    let Some(component) = lists::component(alloc, component)? else {
        return Ok(None);
    };
    let Some(outcome) = found(alloc, rest)? else {
        return Ok(None);
    };
    Ok(Some((Op::Find { component }, outcome)))
}

/// `NAME INODE KIND RESULT`.
fn insert(alloc: Global, rest: &[u8]) -> Result<Option<(Op, Outcome)>, NoMemory>
    ensures { IfOk result (λ o. o ≡ insert_in rest.now) }
{
    let Some((name, rest)) = two_words(rest) else {
        return Ok(None);
    };
    let Some(name) = lists::name(alloc, name)? else {
        return Ok(None);
    };
    let Some((ino, rest)) = two_words(rest) else {
        return Ok(None);
    };
    let Some(ino) = inode(ino) else {
        return Ok(None);
    };
    let Some((kind, rest)) = two_words(rest) else {
        return Ok(None);
    };
    let Some(kind) = fields::kind(kind) else {
        return Ok(None);
    };
    let Some(outcome) = done(alloc, rest)? else {
        return Ok(None);
    };
    Ok(Some((Op::Insert { name, ino, kind }, outcome)))
}

/// `NAME INODE RESULT`.
fn remove(alloc: Global, rest: &[u8]) -> Result<Option<(Op, Outcome)>, NoMemory>
    ensures { IfOk result (λ o. o ≡ remove_in rest.now) }
{
    let Some((name, rest)) = two_words(rest) else {
        return Ok(None);
    };
    let Some(name) = lists::name(alloc, name)? else {
        return Ok(None);
    };
    let Some((ino, rest)) = two_words(rest) else {
        return Ok(None);
    };
    let Some(ino) = inode(ino) else {
        return Ok(None);
    };
    let Some(outcome) = done(alloc, rest)? else {
        return Ok(None);
    };
    Ok(Some((Op::Remove { name, ino }, outcome)))
}

/// `COMPONENT NAME RESULT`.
fn rename(alloc: Global, rest: &[u8]) -> Result<Option<(Op, Outcome)>, NoMemory>
    ensures { IfOk result (λ o. o ≡ rename_in rest.now) }
{
    let Some((component, rest)) = two_words(rest) else {
        return Ok(None);
    };
    let Some(component) = lists::component(alloc, component)? else {
        return Ok(None);
    };
    let Some((name, rest)) = two_words(rest) else {
        return Ok(None);
    };
    let Some(name) = lists::name(alloc, name)? else {
        return Ok(None);
    };
    let Some(outcome) = done(alloc, rest)? else {
        return Ok(None);
    };
    Ok(Some((Op::Rename { component, name }, outcome)))
}

/// `PLACE LENGTH RESULT`.
fn read(alloc: Global, rest: &[u8]) -> Result<Option<(Op, Outcome)>, NoMemory>
    ensures { IfOk result (λ o. o ≡ read_act_in rest.now) }
{
    let Some((at, rest)) = two_words(rest) else {
        return Ok(None);
    };
    let Some(at) = place(at) else {
        return Ok(None);
    };
    let Some((len, rest)) = two_words(rest) else {
        return Ok(None);
    };
    let Some(len) = short_number(len, 0, 4_096) else {
        return Ok(None);
    };
    let Some(outcome) = bytes_read(alloc, rest)? else {
        return Ok(None);
    };
    Ok(Some((Op::Read { at, len }, outcome)))
}

/// `PLACE BYTES RESULT`.
fn write(alloc: Global, rest: &[u8]) -> Result<Option<(Op, Outcome)>, NoMemory>
    ensures { IfOk result (λ o. o ≡ write_in rest.now) }
{
    let Some((at, rest)) = two_words(rest) else {
        return Ok(None);
    };
    let Some(at) = place(at) else {
        return Ok(None);
    };
    let Some((bytes, rest)) = two_words(rest) else {
        return Ok(None);
    };
    let Some(bytes) = hex_bytes(alloc, bytes, 4_096)? else {
        return Ok(None);
    };
    let Some(outcome) = done(alloc, rest)? else {
        return Ok(None);
    };
    Ok(Some((Op::Write { at, bytes }, outcome)))
}

/// `LENGTH RESULT`.
fn cut(alloc: Global, rest: &[u8]) -> Result<Option<(Op, Outcome)>, NoMemory>
    ensures { IfOk result (λ o. o ≡ cut_in rest.now) }
{
    let Some((len, rest)) = two_words(rest) else {
        return Ok(None);
    };
    let Some(len) = place(len) else {
        return Ok(None);
    };
    let Some(outcome) = done(alloc, rest)? else {
        return Ok(None);
    };
    Ok(Some((Op::Cut { len }, outcome)))
}
