// Words that keep memory: names, bytes and lists.
ghost use Rattle.std.specs.Prelude.{◌≡◌, ◌≤◌, ◌<◌, ◌^◌, ◌&&◌, IfOk};
ghost use Rattle.line_text.specs.Words.{pieces};
ghost use Rattle.record_words.specs.Fields.{all_in, component_in, copies_in, data_in, member_from, members_in, name_in, brought_in, stamp_in, stamps_in};
ghost use Rattle.record_words.specs.Order.{ascend, is_brought_before, is_stamp_before};

use crate::fields::{brought, counted, stamp};
use line_text::{hex_bytes, is_text, small_number, split_at};
use locus_ids::sizes::SITES;
use locus_ids::{Brought, Bytes, ItemList, Member, Members, Names, NoMemory, Stamp, Stamps};
use std::alloc::Global;
use trace_book::BroughtList;
use wire_parts::{is_component, is_name};

/// A copy of the word, or `None` exactly where it is no plain name.
pub fn name(alloc: Global, word: &[u8]) -> Result<Option<Bytes>, NoMemory>
    ensures { IfOk result (λ o. o ≡ name_in word.now) }
{
    if !is_name(word) {
        return Ok(None);
    }
    let name = Bytes::from_slice(alloc, word)?;
    Ok(Some(name))
}

/// A copy of the word, or `None` exactly where it is no component of a path.
pub fn component(alloc: Global, word: &[u8]) -> Result<Option<Bytes>, NoMemory>
    ensures { IfOk result (λ o. o ≡ component_in word.now) }
{
    if !is_component(word) {
        return Ok(None);
    }
    let component = Bytes::from_slice(alloc, word)?;
    Ok(Some(component))
}

/// The bytes, `most` at most, that the word is; `-` stands for none.
pub fn data(alloc: Global, word: &[u8], most: usize) -> Result<Option<Bytes>, NoMemory>
    requires { most < 2 ^ 32 }
    ensures { IfOk result (λ o. o ≡ data_in most word.now) }
{
    if is_text(word, b"-") {
        return Ok(Some(Bytes::new(alloc)));
    }
    hex_bytes(alloc, word, most)
}

/// Components with a space between each two.
pub(crate) fn components(alloc: Global, bytes: &[u8]) -> Result<Option<Names>, NoMemory>
    ensures { IfOk result (λ o. o ≡ all_in component_in (pieces 32 bytes.now)) }
{
    let mut names = ItemList::new(alloc);
    let mut rest = bytes;
    while let Some((word, more)) = split_at(rest, b' ') {
        let Some(name) = component(alloc, word)? else {
            return Ok(None);
        };
        names.push(name)?;
        rest = more;
    }
    let Some(name) = component(alloc, rest)? else {
        return Ok(None);
    };
    names.push(name)?;
    Ok(Some(names))
}

/// Stamps with a comma between each two; `-` stands for none.
pub fn stamps(alloc: Global, word: &[u8]) -> Result<Option<Stamps>, NoMemory>
    ensures { IfOk result (λ o. o ≡ stamps_in word.now) }
{
    if is_text(word, b"-") {
        return Ok(Some(ItemList::new(alloc)));
    }
    some_stamps(alloc, word)
}

fn some_stamps(alloc: Global, bytes: &[u8]) -> Result<Option<Stamps>, NoMemory>
    ensures { IfOk result (λ o. o ≡ all_in stamp_in (pieces 44 bytes.now)) }
{
    let mut stamps = ItemList::new(alloc);
    let mut rest = bytes;
    while let Some((word, more)) = split_at(rest, b',') {
        let Some(stamp) = stamp(word) else {
            return Ok(None);
        };
        stamps.push(stamp)?;
        rest = more;
    }
    let Some(stamp) = stamp(rest) else {
        return Ok(None);
    };
    stamps.push(stamp)?;
    Ok(Some(stamps))
}

/// Versions of inodes with a space between each two, each before the next.
pub fn copies(alloc: Global, bytes: &[u8]) -> Result<Option<BroughtList>, NoMemory>
    ensures { IfOk result (λ o. o ≡ copies_in bytes.now) }
{
    let Some(copies) = all_copies(alloc, bytes)? else {
        return Ok(None);
    };
    if ascend(copies.as_slice()) {
        Ok(Some(copies))
    } else {
        Ok(None)
    }
}

fn all_copies(alloc: Global, bytes: &[u8]) -> Result<Option<BroughtList>, NoMemory>
    ensures { IfOk result (λ o. o ≡ all_in brought_in (pieces 32 bytes.now)) }
{
    let mut copies = ItemList::new(alloc);
    let mut rest = bytes;
    while let Some((word, more)) = split_at(rest, b' ') {
        let Some(copy) = brought(word) else {
            return Ok(None);
        };
        copies.push(copy)?;
        rest = more;
    }
    let Some(copy) = brought(rest) else {
        return Ok(None);
    };
    copies.push(copy)?;
    Ok(Some(copies))
}

fn is_stamp_before(a: Stamp, b: Stamp) -> bool
    ensures { result ≡ is_stamp_before a b }
{
    a.site < b.site || (a.site == b.site && a.n < b.n)
}

fn is_brought_before(a: Brought, b: Brought) -> bool
    ensures { result ≡ is_brought_before a b }
{
    a.ino < b.ino || (a.ino == b.ino && is_stamp_before(a.stamp, b.stamp))
}

/// Each version stands before the next.
fn ascend(copies: &[Brought]) -> bool
    ensures { result ≡ ascend copies.now }
{
    let mut rest = copies;
    while let [a, b, ..] = rest {
        if !is_brought_before(*a, *b) {
            return false;
        }
        rest = &rest[1..];
    }
    true
}

/// `SITE:BOOT`, of a site from `least` on.
fn member_from(word: &[u8], least: u8) -> Option<Member>
    ensures { result ≡ member_from least word.now }
{
    let (site, boot) = split_at(word, b':')?;
    let site = small_number(site, least, SITES as u8)?;
    let boot = counted(boot)?;
    Some(Member { site, boot })
}

/// Members with a comma between each two, ascending.
pub fn members(bytes: &[u8]) -> Option<Members>
    ensures { result ≡ members_in bytes.now }
{
    let mut boot = [0; SITES];
    let mut least = 1;
    let mut rest = bytes;
    while let Some((word, more)) = split_at(rest, b',') {
        let member = member_from(word, least)?;
        boot[usize::from(member.site) - 1] = member.boot;
        least = member.site + 1;
        rest = more;
    }
    let member = member_from(rest, least)?;
    boot[usize::from(member.site) - 1] = member.boot;
    Some(Members { boot })
}
