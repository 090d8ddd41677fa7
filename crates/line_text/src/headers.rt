// The lines that say what the cluster is.
ghost use Rattle.std.specs.Prelude.{◌≡◌, ℕ, true, IfOk, OnErr};
ghost use Rattle.line_text.specs.HeaderReader.{begins_header, first_word, group_line, header_in, header_with, mount_line};
ghost use Rattle.line_text.specs.Reading.{DoesHeaderStep, IsHeaderLineOf};

use crate::LineFault;
use crate::header_word::{HeaderWord, find_header_word};
use crate::numbers::small_number;
use crate::site_lists::site_list;
use crate::words::{copy_word, two_words};
use locus_ids::NoMemory;
use locus_ids::sizes::SITES;
use schedule_lines::{Header, HeaderLine};
use std::alloc::Global;

/// What a line is to the header.
#[derive(Clone, Copy)]
pub enum HeaderStep {
    /// A header line, which the header has taken.
    Taken,
    /// Its first word is no word of header lines.
    NotHeader,
}

/// Goes on by a header line. After `NotHeader` and after a fault the header is as it was.
pub fn parse_header(
    alloc: Global,
    line: &[u8],
    so_far: &mut Header,
) -> Result<HeaderStep, LineFault>
    ensures step { IfOk result (DoesHeaderStep so_far.old line.now so_far.new) }
    ensures bad { result ≡ Err LineFault.Bad → (begins_header line.now ≡ true) × ((l : HeaderLine) → IsHeaderLineOf so_far.old line.now l → ⊥) }
    ensures err { OnErr result (so_far.new ≡ so_far.old) }
{
    if !begins_header(line) {
        return Ok(HeaderStep::NotHeader);
    }
    let Some(header) = header_of(alloc, line, so_far.config.sites)? else {
        return Err(LineFault::Bad);
    };
    if !so_far.may_take(&header) {
        return Err(LineFault::Bad);
    }
    so_far.take(header)?;
    Ok(HeaderStep::Taken)
}

/// The line begins with a word of header lines.
fn begins_header(line: &[u8]) -> bool
    ensures { result ≡ begins_header line.now }
{
    find_header_word(first_word(line)).is_some()
}

/// What stands before the first space, or all.
fn first_word(line: &[u8]) -> &[u8]
    ensures { result.now ≡ first_word line.now }
{
    match two_words(line) {
        Some((word, _)) => word,
        None => line,
    }
}

/// The header line that the bytes are, in a cluster of n sites.
fn header_of(alloc: Global, line: &[u8], n: u8) -> Result<Option<HeaderLine>, NoMemory>
    ensures { IfOk result (λ o. o ≡ header_in n line.now) }
{
    let Some((word, rest)) = two_words(line) else {
        return Ok(None);
    };
    match find_header_word(word) {
        Some(word) => header_with(alloc, word, rest, n),
        None => Ok(None),
    }
}

/// The line of this first word with these operands.
fn header_with(
    alloc: Global,
    word: HeaderWord,
    rest: &[u8],
    n: u8,
) -> Result<Option<HeaderLine>, NoMemory>
    ensures { IfOk result (λ o. o ≡ header_with n word rest.now) }
{
    match word {
        HeaderWord::Sites => Ok(small_number(rest, 1, SITES as u8).map(|count| HeaderLine::Sites {
            count,
        })),
        HeaderWord::Group => Ok(group_line(rest, n)),
        HeaderWord::Mount => mount_line(alloc, rest),
    }
}

/// `GROUP SITE SITE ..`.
fn group_line(rest: &[u8], n: u8) -> Option<HeaderLine>
    ensures { result ≡ group_line n rest.now }
{
    let (group, sites) = two_words(rest)?;
    let group = small_number(group, 0, 3)?;
    let sites = site_list(sites, b' ', n)?;
    Some(HeaderLine::Group { group, sites })
}

/// `GROUP NAME`.
fn mount_line(alloc: Global, rest: &[u8]) -> Result<Option<HeaderLine>, NoMemory>
    ensures { IfOk result (λ o. o ≡ mount_line rest.now) }
{
    let Some((group, name)) = two_words(rest) else {
        return Ok(None);
    };
    let Some(group) = small_number(group, 1, 3) else {
        return Ok(None);
    };
    match copy_word(alloc, name)? {
        Some(name) => Ok(Some(HeaderLine::Mount { group, name })),
        None => Ok(None),
    }
}
