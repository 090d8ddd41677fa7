// What a record says at its end: results and replies.
ghost use Rattle.std.specs.Prelude.{◌≡◌, IfOk, IfSome, IfNone, Some, None};
ghost use Rattle.std.specs.Option.{option_map};
ghost use Rattle.record_words.specs.Answers.{after_ok, committed_in, done_in, found_in, names_or_data, read_in, refused_in, reply_in, reply_with, served_in};
ghost use Rattle.record_words.specs.Fields.{inode_in, kind_in, words_in};
ghost use Rattle.trace_book.specs.declared.operation.Outcome.TheVariants as outcome;

use crate::fields::{inode, kind, stamp};
use crate::lists::{components, data};
use crate::refusals::refusal;
use line_text::{hex_bytes, is_text, two_words};
use locus_ids::{ItemList, NoMemory};
use std::alloc::Global;
use trace_book::{Outcome, Reply, Served};

/// A stamp, or a refusal.
pub fn served(alloc: Global, bytes: &[u8]) -> Result<Option<Served>, NoMemory>
    ensures { IfOk result (λ o. o ≡ served_in bytes.now) }
{
    match stamp(bytes) {
        Some(stamp) => Ok(Some(Served::At { stamp })),
        None => Ok(refusal(alloc, bytes)?.map(|why| Served::No { why })),
    }
}

/// What follows `ok` and a space.
fn after_ok(bytes: &[u8]) -> Option<&[u8]>
    ensures found { IfSome result (λ rest. after_ok bytes.now ≡ Some rest.now) }
    ensures none { IfNone result (after_ok bytes.now ≡ None) }
{
    let (word, rest) = two_words(bytes)?;
    if is_text(word, b"ok") {
        Some(rest)
    } else {
        None
    }
}

fn refused(alloc: Global, bytes: &[u8]) -> Result<Option<Outcome>, NoMemory>
    ensures { IfOk result (λ o. o ≡ refused_in bytes.now) }
{
    Ok(refusal(alloc, bytes)?.map(|why| Outcome::No { why }))
}

/// The result of an operation that gives nothing.
pub fn done(alloc: Global, bytes: &[u8]) -> Result<Option<Outcome>, NoMemory>
    ensures { IfOk result (λ o. o ≡ done_in bytes.now) }
{
    if is_text(bytes, b"ok") {
        return Ok(Some(Outcome::Done));
    }
    refused(alloc, bytes)
}

/// The result of an operation that gives an inode and its kind.
pub fn found(alloc: Global, bytes: &[u8]) -> Result<Option<Outcome>, NoMemory>
    ensures { IfOk result (λ o. o ≡ found_in bytes.now) }
{
    match after_ok(bytes) {
        Some(rest) => Ok(inode_and_kind(rest)),
        None => refused(alloc, bytes),
    }
}

/// `INODE KIND`.
fn inode_and_kind(rest: &[u8]) -> Option<Outcome>
    ensures { result ≡ option_map (λ t. outcome.Found t.0 t.1) (words_in inode_in kind_in rest.now) }
{
    let (ino, kind_word) = two_words(rest)?;
    let ino = inode(ino)?;
    let kind = kind(kind_word)?;
    Some(Outcome::Found { ino, kind })
}

/// The result of an operation that gives bytes.
pub fn bytes_read(alloc: Global, bytes: &[u8]) -> Result<Option<Outcome>, NoMemory>
    ensures { IfOk result (λ o. o ≡ read_in bytes.now) }
{
    match after_ok(bytes) {
        Some(rest) => Ok(data(alloc, rest, 4_096)?.map(|bytes| Outcome::Data { bytes })),
        None => refused(alloc, bytes),
    }
}

/// The result of an operation that gives a stamp.
pub fn committed(alloc: Global, bytes: &[u8]) -> Result<Option<Outcome>, NoMemory>
    ensures { IfOk result (λ o. o ≡ committed_in bytes.now) }
{
    match after_ok(bytes) {
        Some(rest) => Ok(stamp(rest).map(|stamp| Outcome::Committed { stamp })),
        None => refused(alloc, bytes),
    }
}

/// A reply. An `ok` is read as the words behind it, since which reply it is depends on the call.
pub fn reply(alloc: Global, bytes: &[u8]) -> Result<Option<Reply>, NoMemory>
    ensures { IfOk result (λ o. o ≡ reply_in bytes.now) }
{
    match after_ok(bytes) {
        Some(rest) => names_or_data(alloc, rest),
        None => short_reply(alloc, bytes),
    }
}

/// An `ok` alone, or a refusal.
fn short_reply(alloc: Global, bytes: &[u8]) -> Result<Option<Reply>, NoMemory>
    ensures { IfOk result (λ o. o ≡ reply_with bytes.now None) }
{
    if is_text(bytes, b"ok") {
        let names = ItemList::new(alloc);
        return Ok(Some(Reply::Names { names }));
    }
    Ok(refusal(alloc, bytes)?.map(|why| Reply::No { why }))
}

/// Names, or bytes that are too many for a name.
fn names_or_data(alloc: Global, rest: &[u8]) -> Result<Option<Reply>, NoMemory>
    ensures { IfOk result (λ o. o ≡ reply_with rest.now (Some rest.now)) }
{
    match components(alloc, rest)? {
        Some(names) => Ok(Some(Reply::Names { names })),
        None => Ok(hex_bytes(alloc, rest, 4_096)?.map(|bytes| Reply::Data { bytes })),
    }
}
