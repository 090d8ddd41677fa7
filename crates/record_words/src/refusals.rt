ghost use Rattle.std.specs.Prelude.{◌≡◌, IfOk};
ghost use Rattle.std.specs.Option.{option_map};
ghost use Rattle.record_words.specs.Answers.{long_refusal, refusal_in, short_refusal};
ghost use Rattle.record_words.specs.Fields.{any_site_in, inode_in, process_in, short_in, stamp_in, words_in};
ghost use Rattle.locus_ids.specs.declared.refusal.Refusal.TheVariants as refusal;

use crate::fields::{any_site, epoch, inode, process, short, stamp};
use crate::lists::component;
use line_text::{is_text, two_words};
use locus_ids::{NoMemory, Refusal};
use std::alloc::Global;

/// The refusal that the words are.
pub fn refusal(alloc: Global, bytes: &[u8]) -> Result<Option<Refusal>, NoMemory>
    ensures { IfOk result (λ o. o ≡ refusal_in bytes.now) }
{
    match two_words(bytes) {
        None => Ok(short_refusal(bytes)),
        Some((word, rest)) => long_refusal(alloc, word, rest),
    }
}

fn short_refusal(word: &[u8]) -> Option<Refusal>
    ensures { result ≡ short_refusal word.now }
{
    if is_text(word, b"isdir") {
        return Some(Refusal::IsDir);
    }
    if is_text(word, b"nostorage") {
        return Some(Refusal::NoStorage);
    }
    if is_text(word, b"nopartition") {
        return Some(Refusal::NoPartition);
    }
    if is_text(word, b"baddescriptor") {
        return Some(Refusal::BadDescriptor);
    }
    if is_text(word, b"toolong") {
        return Some(Refusal::TooLong);
    }
    if is_text(word, b"noinode") {
        return Some(Refusal::NoInode);
    }
    if is_text(word, b"badname") {
        return Some(Refusal::BadName);
    }
    if is_text(word, b"readonly") {
        return Some(Refusal::ReadOnly);
    }
    if is_text(word, b"nodescriptor") {
        return Some(Refusal::NoDescriptor);
    }
    if is_text(word, b"spent") {
        return Some(Refusal::Spent);
    }
    if is_text(word, b"noconflict") {
        return Some(Refusal::NoConflict);
    }
    None
}

/// The refusal of this first word, and of what follows.
fn long_refusal(alloc: Global, word: &[u8], rest: &[u8]) -> Result<Option<Refusal>, NoMemory>
    ensures { IfOk result (λ o. o ≡ long_refusal word.now rest.now) }
{
    if is_text(word, b"busy") {
        return Ok(busy(rest));
    }
    if is_text(word, b"absent") {
        return Ok(component(alloc, rest)?.map(|name| Refusal::Absent { name }));
    }
    if is_text(word, b"notdir") {
        return Ok(component(alloc, rest)?.map(|name| Refusal::NotDir { name }));
    }
    if is_text(word, b"exists") {
        return Ok(inode(rest).map(|ino| Refusal::Exists { ino }));
    }
    if is_text(word, b"notempty") {
        return Ok(component(alloc, rest)?.map(|name| Refusal::NotEmpty { name }));
    }
    if is_text(word, b"conflict") {
        return Ok(conflict(rest));
    }
    if is_text(word, b"ambiguous") {
        return Ok(ambiguous(rest));
    }
    if is_text(word, b"changed") {
        return Ok(epoch(rest).map(|epoch| Refusal::Changed { epoch }));
    }
    if is_text(word, b"stale") {
        return Ok(epoch(rest).map(|epoch| Refusal::Stale { epoch }));
    }
    if is_text(word, b"nospace") {
        return Ok(no_space(rest));
    }
    Ok(None)
}

/// `SITE PROCESS`.
fn busy(rest: &[u8]) -> Option<Refusal>
    ensures { result ≡ option_map (λ t. refusal.Busy t.0 t.1) (words_in any_site_in process_in rest.now) }
{
    let (site, process_word) = two_words(rest)?;
    let site = any_site(site)?;
    let process = process(process_word)?;
    Some(Refusal::Busy { site, process })
}

/// `STAMP STAMP`.
fn conflict(rest: &[u8]) -> Option<Refusal>
    ensures { result ≡ option_map (λ t. refusal.Conflict t.0 t.1) (words_in stamp_in stamp_in rest.now) }
{
    let (a, b) = two_words(rest)?;
    let a = stamp(a)?;
    let b = stamp(b)?;
    Some(Refusal::Conflict { a, b })
}

/// `INODE INODE`.
fn ambiguous(rest: &[u8]) -> Option<Refusal>
    ensures { result ≡ option_map (λ t. refusal.Ambiguous t.0 t.1) (words_in inode_in inode_in rest.now) }
{
    let (a, b) = two_words(rest)?;
    let a = inode(a)?;
    let b = inode(b)?;
    Some(Refusal::Ambiguous { a, b })
}

/// `NEEDED FREE`.
fn no_space(rest: &[u8]) -> Option<Refusal>
    ensures { result ≡ option_map (λ t. refusal.NoSpace t.0 t.1) (words_in short_in short_in rest.now) }
{
    let (needed, free) = two_words(rest)?;
    let needed = short(needed)?;
    let free = short(free)?;
    Some(Refusal::NoSpace { needed, free })
}
