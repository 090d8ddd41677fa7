// What a trace tells of sites, epochs and packets.
ghost use Rattle.std.specs.Prelude.{◌≡◌, IfOk};
ghost use Rattle.line_text.specs.Words.{two_words};
ghost use Rattle.record_reading.specs.Records.{cause_in, group_with, join_in, leave_in, packet_record_in, start_in, stopped_in, up_in};

use crate::packets;
use line_text::{is_text, two_words};
use locus_ids::{ItemList, NoMemory};
use record_words::fields::{self, any_site, counted};
use record_words::lists;
use std::alloc::Global;
use trace_book::{BroughtList, Record, StopCause};

/// `SITE BOOT`.
pub(crate) fn up(rest: &[u8]) -> Option<Record>
    ensures { result ≡ up_in rest.now }
{
    let (site, rest) = two_words(rest)?;
    let site = any_site(site)?;
    let boot = counted(rest)?;
    Some(Record::Up { site, boot })
}

fn cause(word: &[u8]) -> Option<StopCause>
    ensures { result ≡ cause_in word.now }
{
    if is_text(word, b"asked") {
        return Some(StopCause::Asked);
    }
    if is_text(word, b"fuse") {
        return Some(StopCause::Fuse);
    }
    if is_text(word, b"fault") {
        return Some(StopCause::Fault);
    }
    None
}

/// `SITE CAUSE`.
pub(crate) fn stopped(rest: &[u8]) -> Option<Record>
    ensures { result ≡ stopped_in rest.now }
{
    let (site, rest) = two_words(rest)?;
    let site = any_site(site)?;
    let why = cause(rest)?;
    Some(Record::Stopped { site, cause: why })
}

/// `SITE EPOCH`.
pub(crate) fn leave(rest: &[u8]) -> Option<Record>
    ensures { result ≡ leave_in rest.now }
{
    let (site, rest) = two_words(rest)?;
    let site = any_site(site)?;
    let epoch = fields::epoch(rest)?;
    Some(Record::Leave { site, epoch })
}

/// `SITE EPOCH MEMBERS`.
pub(crate) fn join(rest: &[u8]) -> Option<Record>
    ensures { result ≡ join_in rest.now }
{
    let (site, rest) = two_words(rest)?;
    let site = any_site(site)?;
    let (epoch, rest) = two_words(rest)?;
    let epoch = fields::epoch(epoch)?;
    let members = lists::members(rest)?;
    Some(Record::Join {
        site,
        epoch,
        members,
    })
}

/// `NUMBER FROM TO KIND`.
pub(crate) fn packet(rest: &[u8]) -> Option<Record>
    ensures { result ≡ packet_record_in rest.now }
{
    let (number, rest) = two_words(rest)?;
    let number = counted(number)?;
    let (from, rest) = two_words(rest)?;
    let from = any_site(from)?;
    let (to, rest) = two_words(rest)?;
    let to = any_site(to)?;
    let kind = packets::packet(rest)?;
    Some(Record::Packet {
        number,
        from,
        to,
        kind,
    })
}

/// `EPOCH GROUP INODE=STAMP ..`.
pub(crate) fn start(alloc: Global, rest: &[u8]) -> Result<Option<Record>, NoMemory>
    ensures { IfOk result (λ o. o ≡ start_in rest.now) }
{
    let Some((epoch, rest)) = two_words(rest) else {
        return Ok(None);
    };
    let Some(epoch) = fields::epoch(epoch) else {
        return Ok(None);
    };
    let Some((group, copies)) = group_and_copies(alloc, rest)? else {
        return Ok(None);
    };
    Ok(Some(Record::Start {
        epoch,
        group,
        copies,
    }))
}

/// A group, and the versions that its members brought.
fn group_and_copies(alloc: Global, bytes: &[u8]) -> Result<Option<(u8, BroughtList)>, NoMemory>
    ensures { IfOk result (λ o. o ≡ group_with bytes.now (two_words bytes.now)) }
{
    let Some((group, rest)) = two_words(bytes) else {
        let copies = ItemList::new(alloc);
        return Ok(fields::group(bytes).map(|group| (group, copies)));
    };
    let Some(group) = fields::group(group) else {
        return Ok(None);
    };
    match lists::copies(alloc, rest)? {
        Some(copies) => Ok(Some((group, copies))),
        None => Ok(None),
    }
}
