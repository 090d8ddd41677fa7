// The calls of processes.
ghost use Rattle.std.specs.Prelude.{◌≡◌, ℕ, List, true, IfOk};
ghost use Rattle.trace_book.specs.Text.{call_words};
ghost use Rattle.schedule_lines.specs.Ranges.{fits_call};
ghost use Rattle.line_text.specs.CallReader.{call_in, call_with, create_call, cut_call, mail_call, mode_in, open_call, read_call, rename_call, resolve_mode, write_call};
ghost use Rattle.line_text.specs.Words.{two_words};
ghost use Rattle.line_text.specs.Reading.{IsCallOf};

use crate::LineFault;
use crate::call_word::{CallWord, find_call_word};
use crate::hex_words::hex_bytes;
use crate::numbers::{descriptor, number, short_number, site};
use crate::site_lists::site_list;
use crate::words::{copy_word, is_text, three_words, two_words};
use locus_ids::NoMemory;
use locus_ids::sizes::FILE_BYTES;
use schedule_lines::Header;
use std::alloc::Global;
use trace_book::{Call, OpenMode};

/// The call that the words are, in the cluster of the header.
pub fn parse_call(alloc: Global, words: &[u8], h: &Header) -> Result<Call, LineFault>
    ensures found { IfOk result (IsCallOf h.now.config.sites words.now) }
    ensures bad { result ≡ Err LineFault.Bad → (c : Call) → IsCallOf h.now.config.sites words.now c → ⊥ }
{
    match call_of(alloc, words, h.config.sites)? {
        Some(call) => Ok(call),
        None => Err(LineFault::Bad),
    }
}

/// The call that the words are, in a cluster of n sites.
pub fn call_of(alloc: Global, words: &[u8], n: u8) -> Result<Option<Call>, NoMemory>
    ensures { IfOk result (λ o. o ≡ call_in n words.now) }
{
    let Some((word, rest)) = two_words(words) else {
        return Ok(None);
    };
    match find_call_word(word) {
        Some(word) => call_with(alloc, word, rest, n),
        None => Ok(None),
    }
}

/// The call of this first word with these operands.
fn call_with(alloc: Global, word: CallWord, rest: &[u8], n: u8) -> Result<Option<Call>, NoMemory>
    ensures { IfOk result (λ o. o ≡ call_with n word rest.now) }
{
    match word {
        CallWord::Create => create(alloc, rest, n),
        CallWord::MakeDir => Ok(copy_word(alloc, rest)?.map(|path| Call::MakeDir { path })),
        CallWord::Unlink => Ok(copy_word(alloc, rest)?.map(|path| Call::Unlink { path })),
        CallWord::RemoveDir => Ok(copy_word(alloc, rest)?.map(|path| Call::RemoveDir { path })),
        CallWord::Rename => rename(alloc, rest),
        CallWord::List => Ok(copy_word(alloc, rest)?.map(|path| Call::List { path })),
        CallWord::Stat => Ok(copy_word(alloc, rest)?.map(|path| Call::Stat { path })),
        CallWord::Open => open(alloc, rest, n),
        CallWord::Read => Ok(read(rest)),
        CallWord::Write => write(alloc, rest),
        CallWord::Cut => Ok(cut(rest)),
        CallWord::Commit => Ok(descriptor(rest).map(|fd| Call::Commit { fd })),
        CallWord::Abort => Ok(descriptor(rest).map(|fd| Call::Abort { fd })),
        CallWord::Close => Ok(descriptor(rest).map(|fd| Call::Close { fd })),
        CallWord::Mail => mail(alloc, rest),
        CallWord::Mails => Ok(copy_word(alloc, rest)?.map(|path| Call::Mails { path })),
    }
}

/// `PATH` and `PATH SITE,SITE,..`.
fn create(alloc: Global, rest: &[u8], n: u8) -> Result<Option<Call>, NoMemory>
    ensures { IfOk result (λ o. o ≡ create_call n rest.now) }
{
    let Some((path, sites)) = two_words(rest) else {
        return Ok(copy_word(alloc, rest)?.map(|path| Call::Create { path, sites: None }));
    };
    let Some(sites) = site_list(sites, b',', n) else {
        return Ok(None);
    };
    match copy_word(alloc, path)? {
        Some(path) => Ok(Some(Call::Create {
            path,
            sites: Some(sites),
        })),
        None => Ok(None),
    }
}

/// `PATH NAME`.
fn rename(alloc: Global, rest: &[u8]) -> Result<Option<Call>, NoMemory>
    ensures { IfOk result (λ o. o ≡ rename_call rest.now) }
{
    let Some((path, name)) = two_words(rest) else {
        return Ok(None);
    };
    let Some(path) = copy_word(alloc, path)? else {
        return Ok(None);
    };
    match copy_word(alloc, name)? {
        Some(name) => Ok(Some(Call::Rename { path, name })),
        None => Ok(None),
    }
}

/// `PATH BYTES`.
fn mail(alloc: Global, rest: &[u8]) -> Result<Option<Call>, NoMemory>
    ensures { IfOk result (λ o. o ≡ mail_call rest.now) }
{
    let Some((path, bytes)) = two_words(rest) else {
        return Ok(None);
    };
    let Some(path) = copy_word(alloc, path)? else {
        return Ok(None);
    };
    match hex_bytes(alloc, bytes, 4_096)? {
        Some(bytes) => Ok(Some(Call::Mail { path, bytes })),
        None => Ok(None),
    }
}

/// `PATH r`, `PATH w` and `PATH x SITE`.
fn open(alloc: Global, rest: &[u8], n: u8) -> Result<Option<Call>, NoMemory>
    ensures { IfOk result (λ o. o ≡ open_call n rest.now) }
{
    let Some((path, mode)) = two_words(rest) else {
        return Ok(None);
    };
    let Some(mode) = mode_of(mode, n) else {
        return Ok(None);
    };
    match copy_word(alloc, path)? {
        Some(path) => Ok(Some(Call::Open { path, mode })),
        None => Ok(None),
    }
}

fn mode_of(words: &[u8], n: u8) -> Option<OpenMode>
    ensures { result ≡ mode_in n words.now }
{
    if is_text(words, b"r") {
        return Some(OpenMode::Read);
    }
    if is_text(words, b"w") {
        return Some(OpenMode::Write);
    }
    if is_text(words, b"s") {
        return Some(OpenMode::Steady);
    }
    resolve_mode(words, n)
}

/// `x SITE`.
fn resolve_mode(words: &[u8], n: u8) -> Option<OpenMode>
    ensures { result ≡ resolve_mode n (two_words words.now) }
{
    let (word, number) = two_words(words)?;
    if !is_text(word, b"x") {
        return None;
    }
    let site = site(number, n)?;
    Some(OpenMode::Resolve { site: site.get() })
}

/// `DESCRIPTOR PLACE LENGTH`.
fn read(rest: &[u8]) -> Option<Call>
    ensures { result ≡ read_call rest.now }
{
    let (fd, at, len) = three_words(rest)?;
    let fd = descriptor(fd)?;
    let at = number(at, 0, FILE_BYTES as u32)?;
    let len = short_number(len, 4_096)?;
    Some(Call::Read { fd, at, len })
}

/// `DESCRIPTOR PLACE BYTES`.
fn write(alloc: Global, rest: &[u8]) -> Result<Option<Call>, NoMemory>
    ensures { IfOk result (λ o. o ≡ write_call rest.now) }
{
    let Some((fd, at, bytes)) = three_words(rest) else {
        return Ok(None);
    };
    let Some(fd) = descriptor(fd) else {
        return Ok(None);
    };
    let Some(at) = number(at, 0, FILE_BYTES as u32) else {
        return Ok(None);
    };
    match hex_bytes(alloc, bytes, 4_096)? {
        Some(bytes) => Ok(Some(Call::Write { fd, at, bytes })),
        None => Ok(None),
    }
}

/// `DESCRIPTOR LENGTH`.
fn cut(rest: &[u8]) -> Option<Call>
    ensures { result ≡ cut_call rest.now }
{
    let (fd, len) = two_words(rest)?;
    let fd = descriptor(fd)?;
    let len = number(len, 0, FILE_BYTES as u32)?;
    Some(Call::Cut { fd, len })
}
