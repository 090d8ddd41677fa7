ghost use Rattle.std.specs.Prelude.{◌≡◌, ◌∷◌, [], ◌<◌, ◌≤◌, length, IfOk};
ghost use Rattle.trace_book.specs.declared.reply.Reply.TheVariants as reply;
ghost use Rattle.trace_book.specs.Text.{file_text, hex_text, kind_text, number, stamp_text};
ghost use Rattle.promises.specs.Same.{same_reply};
ghost use Rattle.record_reading.specs.AsRead.{reply_as_read};
ghost use Rattle.audit_asked.specs.Words.{stat_words, version_words};

use crate::words;
use audit_same::same_reply;
use locus_ids::{Bytes, FileId, Kind, Names, NoMemory, Stamp};
use std::alloc::Global;
use trace_book::Reply;

/// The text of the first reply is read as the second.
pub fn is_read_so(alloc: Global, given: &Reply, read: &Reply) -> Result<bool, NoMemory>
    ensures { IfOk result (λ b. b ≡ same_reply (reply_as_read given.now) read.now) }
{
    match given {
        Reply::Made { ino } => {
            let names = number_word(alloc, *ino)?;
            Ok(same_reply(&Reply::Names { names }, read))
        }
        Reply::Done => {
            let names = Names::new(alloc);
            Ok(same_reply(&Reply::Names { names }, read))
        }
        Reply::Names { names: _ } => Ok(same_reply(given, read)),
        Reply::Stat {
            kind,
            file,
            size,
            stamp,
        } => {
            let names = stat_words(alloc, *kind, *file, *size, *stamp)?;
            Ok(same_reply(&Reply::Names { names }, read))
        }
        Reply::Opened { fd } => {
            let names = number_word(alloc, *fd)?;
            Ok(same_reply(&Reply::Names { names }, read))
        }
        Reply::Data { bytes } => is_data_read_so(alloc, bytes, read),
        Reply::Committed { stamp } => {
            let names = version_words(alloc, Some(*stamp))?;
            Ok(same_reply(&Reply::Names { names }, read))
        }
        Reply::Closed { stamp } => {
            let names = version_words(alloc, *stamp)?;
            Ok(same_reply(&Reply::Names { names }, read))
        }
        Reply::No { why: _ } => Ok(same_reply(given, read)),
    }
}

/// Bytes are read as one word, unless they are too many.
fn is_data_read_so(alloc: Global, bytes: &Bytes, read: &Reply) -> Result<bool, NoMemory>
    ensures { IfOk result (λ b. b ≡ same_reply (reply_as_read (reply.Data bytes.now)) read.now) }
{
    if bytes.len() <= 30 {
        let word = words::hex(alloc, bytes.as_slice())?;
        let names = one_word(alloc, word)?;
        Ok(same_reply(&Reply::Names { names }, read))
    } else {
        let bytes = bytes.copy()?;
        Ok(same_reply(&Reply::Data { bytes }, read))
    }
}

fn one_word(alloc: Global, word: Bytes) -> Result<Names, NoMemory>
    ensures { IfOk result (λ made. made ≡ word ∷ []) }
{
    let mut names = Names::new(alloc);
    names.push(word)?;
    Ok(names)
}

fn number_word(alloc: Global, n: u16) -> Result<Names, NoMemory>
    ensures { IfOk result (λ made. made ≡ number n ∷ []) }
{
    let word = words::number(alloc, u32::from(n))?;
    one_word(alloc, word)
}

fn version_words(alloc: Global, stamp: Option<Stamp>) -> Result<Names, NoMemory>
    ensures { IfOk result (λ made. made ≡ version_words stamp) }
{
    match stamp {
        Some(stamp) => {
            let word = words::stamp(alloc, stamp)?;
            one_word(alloc, word)
        }
        None => Ok(Names::new(alloc)),
    }
}

fn stat_words(
    alloc: Global,
    kind: Kind,
    file: FileId,
    size: u32,
    stamp: Stamp,
) -> Result<Names, NoMemory>
    ensures { IfOk result (λ made. made ≡ stat_words kind file size stamp) }
{
    let kind = words::kind(alloc, kind)?;
    let file = words::file(alloc, file)?;
    let size = words::number(alloc, size)?;
    let stamp = words::stamp(alloc, stamp)?;
    let mut names = Names::new(alloc);
    names.push(kind)?;
    names.push(file)?;
    names.push(size)?;
    names.push(stamp)?;
    Ok(names)
}
