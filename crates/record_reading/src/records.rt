// Which record some bytes are, by their first word.
ghost use Rattle.std.specs.Prelude.{◌≡◌, IfOk};
ghost use Rattle.record_reading.specs.Records.{kept_record, long_record, record_in, short_record};

use crate::instance_records::{accept, act, answer, grant, look, refuse, release};
use crate::site_records::{join, leave, packet, start, stopped, up};
use crate::version_records::{adopt, commit};
use line_text::{is_text, two_words};
use locus_ids::NoMemory;
use std::alloc::Global;
use trace_book::Record;

/// The record that the bytes are.
pub(crate) fn record(alloc: Global, bytes: &[u8]) -> Result<Option<Record>, NoMemory>
    ensures { IfOk result (λ o. o ≡ record_in bytes.now) }
{
    match two_words(bytes) {
        None => Ok(short_record(bytes)),
        Some((word, rest)) => long_record(alloc, word, rest),
    }
}

fn short_record(word: &[u8]) -> Option<Record>
    ensures { result ≡ short_record word.now }
{
    if is_text(word, b"void") {
        return Some(Record::Void);
    }
    if is_text(word, b"budget") {
        return Some(Record::Budget);
    }
    None
}

/// The record of this first word, and of what follows.
fn long_record(alloc: Global, word: &[u8], rest: &[u8]) -> Result<Option<Record>, NoMemory>
    ensures { IfOk result (λ o. o ≡ long_record word.now rest.now) }
{
    if is_text(word, b"up") {
        return Ok(up(rest));
    }
    if is_text(word, b"stopped") {
        return Ok(stopped(rest));
    }
    if is_text(word, b"leave") {
        return Ok(leave(rest));
    }
    if is_text(word, b"join") {
        return Ok(join(rest));
    }
    if is_text(word, b"grant") {
        return Ok(grant(rest));
    }
    if is_text(word, b"release") {
        return Ok(release(rest));
    }
    if is_text(word, b"adopt") {
        return Ok(adopt(rest));
    }
    if is_text(word, b"packet") {
        return Ok(packet(rest));
    }
    kept_record(alloc, word, rest)
}

/// A record that keeps bytes or lists.
fn kept_record(alloc: Global, word: &[u8], rest: &[u8]) -> Result<Option<Record>, NoMemory>
    ensures { IfOk result (λ o. o ≡ kept_record word.now rest.now) }
{
    if is_text(word, b"start") {
        return start(alloc, rest);
    }
    if is_text(word, b"call") {
        return accept(alloc, rest);
    }
    if is_text(word, b"look") {
        return look(alloc, rest);
    }
    if is_text(word, b"refuse") {
        return refuse(alloc, rest);
    }
    if is_text(word, b"act") {
        return act(alloc, rest);
    }
    if is_text(word, b"commit") {
        return commit(alloc, rest);
    }
    if is_text(word, b"reply") {
        return answer(alloc, rest);
    }
    Ok(None)
}
