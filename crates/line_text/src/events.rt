// The lines that say what happens.
ghost use Rattle.std.specs.Prelude.{◌≡◌, ℕ, IfOk};
ghost use Rattle.line_text.specs.EventReader.{arm_stop, call_line, event_in, event_with, fail_line, leave_in, packet_in, passing_in, stop_with, two_sites};
ghost use Rattle.line_text.specs.Words.{two_words};
ghost use Rattle.line_text.specs.Reading.{IsLineOf};

use crate::LineFault;
use crate::calls::call_of;
use crate::event_word::{EventWord, find_event_word};
use crate::hex_words::hex_byte;
use crate::numbers::{number, site, small_number};
use crate::words::{is_text, three_words, two_words};
use locus_ids::{NoMemory, SiteId};
use schedule_lines::{Header, Leave, Line};
use std::alloc::Global;

/// The event line that the bytes are, which may stand after this header.
pub fn parse_line(alloc: Global, line: &[u8], h: &Header) -> Result<Line, LineFault>
    ensures found { IfOk result (IsLineOf h.now line.now) }
    ensures bad { result ≡ Err LineFault.Bad → (l : Line) → IsLineOf h.now line.now l → ⊥ }
{
    if !h.whole {
        return Err(LineFault::Bad);
    }
    match event_of(alloc, line, h.config.sites)? {
        Some(line) => Ok(line),
        None => Err(LineFault::Bad),
    }
}

/// The event line that the bytes are, in a cluster of n sites.
fn event_of(alloc: Global, line: &[u8], n: u8) -> Result<Option<Line>, NoMemory>
    ensures { IfOk result (λ o. o ≡ event_in n line.now) }
{
    let Some((word, rest)) = two_words(line) else {
        if is_text(line, b"pending") {
            return Ok(Some(Line::Pending));
        }
        return Ok(None);
    };
    match find_event_word(word) {
        Some(word) => event_with(alloc, word, rest, n),
        None => Ok(None),
    }
}

/// The line of this first word with these operands.
fn event_with(alloc: Global, word: EventWord, rest: &[u8], n: u8) -> Result<Option<Line>, NoMemory>
    ensures { IfOk result (λ o. o ≡ event_with n word rest.now) }
{
    match word {
        EventWord::Call => call_line(alloc, rest, n),
        EventWord::Deliver => Ok(packet(rest).map(|packet| Line::Deliver { packet })),
        EventWord::Lose => Ok(packet(rest).map(|packet| Line::Lose { packet })),
        EventWord::Tick => Ok(site(rest, n).map(|site| Line::Tick { site })),
        EventWord::Down => Ok(two_sites(rest, n).map(|(one, other)| Line::Down { one, other })),
        EventWord::Up => Ok(two_sites(rest, n).map(|(one, other)| Line::Up { one, other })),
        EventWord::Part => Ok(site(rest, n).map(|site| Line::Part { site })),
        EventWord::Merge => Ok(site(rest, n).map(|site| Line::Merge { site })),
        EventWord::GiveUp => Ok(site(rest, n).map(|site| Line::GiveUp { site })),
        EventWord::Stop => Ok(stop(rest, n)),
        EventWord::Fail => Ok(fail(rest, n)),
        EventWord::Boot => Ok(site(rest, n).map(|site| Line::Boot { site })),
        EventWord::Settle => Ok(number(rest, 1, 1_000_000).map(|most| Line::Settle { most })),
    }
}

/// `SITE PROCESS CALL`.
pub(crate) fn call_line(alloc: Global, rest: &[u8], n: u8) -> Result<Option<Line>, NoMemory>
    ensures { IfOk result (λ o. o ≡ call_line n rest.now) }
{
    let Some((number, process, words)) = three_words(rest) else {
        return Ok(None);
    };
    let Some(site) = site(number, n) else {
        return Ok(None);
    };
    let Some(process) = small_number(process, 1, 8) else {
        return Ok(None);
    };
    match call_of(alloc, words, n)? {
        Some(call) => Ok(Some(Line::Call {
            site,
            process,
            call,
        })),
        None => Ok(None),
    }
}

/// The number of a packet.
fn packet(word: &[u8]) -> Option<u32>
    ensures { result ≡ packet_in word.now }
{
    number(word, 1, 1_000_000)
}

/// The number of disk calls that pass.
fn passing(word: &[u8]) -> Option<u32>
    ensures { result ≡ passing_in word.now }
{
    number(word, 0, 1_000_000)
}

/// Two sites that differ.
fn two_sites(rest: &[u8], n: u8) -> Option<(SiteId, SiteId)>
    ensures { result ≡ two_sites n rest.now }
{
    let (one, other) = two_words(rest)?;
    let one = site(one, n)?;
    let other = site(other, n)?;
    if one.get() == other.get() {
        return None;
    }
    Some((one, other))
}

/// `SITE` and `SITE CALLS LEAVE`.
fn stop(rest: &[u8], n: u8) -> Option<Line>
    ensures { result ≡ stop_with n rest.now (two_words rest.now) }
{
    match two_words(rest) {
        None => site(rest, n).map(|site| Line::Stop { site }),
        Some(_) => arm_stop(rest, n),
    }
}

/// `SITE CALLS LEAVE`.
fn arm_stop(rest: &[u8], n: u8) -> Option<Line>
    ensures { result ≡ arm_stop n rest.now }
{
    let (number, calls, leave) = three_words(rest)?;
    let site = site(number, n)?;
    let calls = passing(calls)?;
    let leave = leave_of(leave)?;
    Some(Line::ArmStop { site, calls, leave })
}

fn leave_of(word: &[u8]) -> Option<Leave>
    ensures { result ≡ leave_in word.now }
{
    if is_text(word, b"old") {
        return Some(Leave::Old);
    }
    if is_text(word, b"new") {
        return Some(Leave::New);
    }
    hex_byte(word).map(|byte| Leave::Byte { byte })
}

/// `SITE CALLS`.
fn fail(rest: &[u8], n: u8) -> Option<Line>
    ensures { result ≡ fail_line n rest.now }
{
    let (number, calls) = two_words(rest)?;
    let site = site(number, n)?;
    let calls = passing(calls)?;
    Some(Line::ArmFail { site, calls })
}
