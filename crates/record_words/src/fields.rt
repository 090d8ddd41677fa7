// Single words that keep no memory: numbers and the names of things.
ghost use Rattle.std.specs.Prelude.{◌≡◌, ◌≤◌, ◌<◌, ◌^◌, IfSome, IfNone, Some, None};
ghost use Rattle.line_text.specs.Words.{number_in};
ghost use Rattle.record_words.specs.Fields.{after_letter, any_site_in, brought_in, call_id_in, counted_in, epoch_in, file_from, file_in, group_in, inode_in, instance_in, kind_in, mode_in, optional_stamp_in, process_in, request_in, short_in, stamp_in};
ghost use Rattle.record_words.specs.Order.{agrees};

use line_text::{is_text, number, small_number, split_at};
use locus_ids::sizes::{INODES, SITES};
use locus_ids::{Brought, CallId, EpochId, FileId, Kind, Mode, Serial, Stamp};

pub fn any_site(word: &[u8]) -> Option<u8>
    ensures { result ≡ any_site_in word.now }
{
    small_number(word, 1, SITES as u8)
}

pub fn counted(word: &[u8]) -> Option<u32>
    ensures { result ≡ counted_in word.now }
{
    number(word, 1, u32::MAX)
}

pub fn process(word: &[u8]) -> Option<u8>
    ensures { result ≡ process_in word.now }
{
    small_number(word, 0, 8)
}

pub fn group(word: &[u8]) -> Option<u8>
    ensures { result ≡ group_in word.now }
{
    small_number(word, 0, 3)
}

/// The number from `low` to `most` that the word is, where the most is below 65,536.
pub fn short_number(word: &[u8], low: u16, most: u16) -> Option<u16>
    ensures { result ≡ number_in low most word.now }
{
    let n = number(word, u32::from(low), u32::from(most))?;
    Some(n as u16)
}

pub(crate) fn short(word: &[u8]) -> Option<u16>
    ensures { result ≡ short_in word.now }
{
    short_number(word, 0, u16::MAX)
}

pub fn request(word: &[u8]) -> Option<u16>
    ensures { result ≡ request_in word.now }
{
    short_number(word, 1, u16::MAX)
}

pub fn inode(word: &[u8]) -> Option<u16>
    ensures { result ≡ inode_in word.now }
{
    short_number(word, 1, INODES)
}

/// `SITE.N`, which is 0.0 or has both from 1.
pub fn stamp(word: &[u8]) -> Option<Stamp>
    ensures { result ≡ stamp_in word.now }
{
    let (site, n) = split_at(word, b'.')?;
    let site = small_number(site, 0, SITES as u8)?;
    let n = number(n, 0, u32::MAX)?;
    if !agrees(site, n) {
        return None;
    }
    Some(Stamp { site, n })
}

/// The number is 0 exactly where the site is.
fn agrees(site: u8, n: u32) -> bool
    ensures { result ≡ agrees site n }
{
    if site == 0 { n == 0 } else { n > 0 }
}

/// A stamp, or `-`.
pub fn optional_stamp(word: &[u8]) -> Option<Option<Stamp>>
    ensures { result ≡ optional_stamp_in word.now }
{
    if is_text(word, b"-") {
        return Some(None);
    }
    let stamp = stamp(word)?;
    Some(Some(stamp))
}

/// `GROUP.INODE`, whose inode is at least `low`.
pub fn file_from(word: &[u8], low: u16) -> Option<FileId>
    ensures { result ≡ file_from low word.now }
{
    let (place, ino) = split_at(word, b'.')?;
    let group = group(place)?;
    let ino = short_number(ino, low, INODES)?;
    Some(FileId { group, ino })
}

pub fn file(word: &[u8]) -> Option<FileId>
    ensures { result ≡ file_in word.now }
{
    file_from(word, 1)
}

/// What follows the letter.
fn after_letter(word: &[u8], letter: u8) -> Option<&[u8]>
    ensures found { IfSome result (λ rest. after_letter letter word.now ≡ Some rest.now) }
    ensures none { IfNone result (after_letter letter word.now ≡ None) }
{
    match word {
        [first, rest @ ..] if *first == letter => Some(rest),
        _ => None,
    }
}

/// `eNUMBER.SITE.BOOT`.
pub fn epoch(word: &[u8]) -> Option<EpochId>
    ensures { result ≡ epoch_in word.now }
{
    let rest = after_letter(word, b'e')?;
    let (number, place) = split_at(rest, b'.')?;
    let number = counted(number)?;
    let (site, boot) = split_at(place, b'.')?;
    let site = any_site(site)?;
    let boot = counted(boot)?;
    Some(EpochId { number, site, boot })
}

/// `cSITE.BOOT.N`.
pub fn call_id(word: &[u8]) -> Option<CallId>
    ensures { result ≡ call_id_in word.now }
{
    let rest = after_letter(word, b'c')?;
    let (site, which) = split_at(rest, b'.')?;
    let site = any_site(site)?;
    let (boot, n) = split_at(which, b'.')?;
    let boot = counted(boot)?;
    let n = counted(n)?;
    Some(CallId { site, boot, n })
}

/// `iSITE.SERIAL`.
pub fn instance(word: &[u8]) -> Option<Serial>
    ensures { result ≡ instance_in word.now }
{
    let rest = after_letter(word, b'i')?;
    let (us, serial) = split_at(rest, b'.')?;
    let us = any_site(us)?;
    let serial = counted(serial)?;
    Some(Serial { us, serial })
}

pub fn mode(word: &[u8]) -> Option<Mode>
    ensures { result ≡ mode_in word.now }
{
    if is_text(word, b"r") {
        return Some(Mode::Read);
    }
    if is_text(word, b"w") {
        return Some(Mode::Write);
    }
    if is_text(word, b"x") {
        return Some(Mode::Resolve);
    }
    if is_text(word, b"m") {
        return Some(Mode::Mend);
    }
    if is_text(word, b"n") {
        return Some(Mode::Make);
    }
    None
}

pub fn kind(word: &[u8]) -> Option<Kind>
    ensures { result ≡ kind_in word.now }
{
    if is_text(word, b"f") {
        return Some(Kind::File);
    }
    if is_text(word, b"d") {
        return Some(Kind::Dir);
    }
    None
}

/// `INODE=STAMP`.
pub(crate) fn brought(word: &[u8]) -> Option<Brought>
    ensures { result ≡ brought_in word.now }
{
    let (ino, version) = split_at(word, b'=')?;
    let ino = inode(ino)?;
    let stamp = stamp(version)?;
    Some(Brought { ino, stamp })
}
