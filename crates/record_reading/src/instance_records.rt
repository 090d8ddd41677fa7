// What a trace tells of calls and of open instances.
ghost use Rattle.std.specs.Prelude.{◌≡◌, IfOk};
ghost use Rattle.record_words.specs.Fields.{any_site_in, file_in, mode_in, optional_stamp_in, words_in};
ghost use Rattle.record_reading.specs.Ranges.{names_inode};
ghost use Rattle.record_reading.specs.Records.{accept_in, act_record_in, answer_in, grant_in, look_record_in, refuse_in, refused_file_in, refused_open_in, release_in};

use crate::{operations, requests};
use line_text::two_words;
use locus_ids::{FileId, Mode, NoMemory, Refusal, Stamp};
use record_words::fields::{self, any_site};
use record_words::{answers, refusals};
use std::alloc::Global;
use trace_book::Record;

/// `SITE PROCESS CALL WORDS`.
pub(crate) fn accept(alloc: Global, rest: &[u8]) -> Result<Option<Record>, NoMemory>
    ensures { IfOk result (λ o. o ≡ accept_in rest.now) }
{
    let Some((site, rest)) = two_words(rest) else {
        return Ok(None);
    };
    let Some(site) = any_site(site) else {
        return Ok(None);
    };
    let Some((process, rest)) = two_words(rest) else {
        return Ok(None);
    };
    let Some(process) = fields::process(process) else {
        return Ok(None);
    };
    let Some((call, rest)) = two_words(rest) else {
        return Ok(None);
    };
    let Some(call) = fields::call_id(call) else {
        return Ok(None);
    };
    let Some(words) = requests::call_words(alloc, process, rest)? else {
        return Ok(None);
    };
    Ok(Some(Record::Accept {
        site,
        process,
        call,
        words,
    }))
}

/// `EPOCH CALL REQUEST FILE WHAT SERVED`.
pub(crate) fn look(alloc: Global, rest: &[u8]) -> Result<Option<Record>, NoMemory>
    ensures { IfOk result (λ o. o ≡ look_record_in rest.now) }
{
    let Some((epoch, rest)) = two_words(rest) else {
        return Ok(None);
    };
    let Some(epoch) = fields::epoch(epoch) else {
        return Ok(None);
    };
    let Some((call, rest)) = two_words(rest) else {
        return Ok(None);
    };
    let Some(call) = fields::call_id(call) else {
        return Ok(None);
    };
    let Some((request, rest)) = two_words(rest) else {
        return Ok(None);
    };
    let Some(request) = fields::request(request) else {
        return Ok(None);
    };
    let Some((file, rest)) = two_words(rest) else {
        return Ok(None);
    };
    let Some(file) = fields::file(file) else {
        return Ok(None);
    };
    let Some((what, served)) = requests::look(alloc, rest)? else {
        return Ok(None);
    };
    Ok(Some(Record::Look {
        epoch,
        call,
        request,
        file,
        what,
        result: served,
    }))
}

/// `EPOCH CALL REQUEST INSTANCE MODE FILE STAMP SITE`.
pub(crate) fn grant(rest: &[u8]) -> Option<Record>
    ensures { result ≡ grant_in rest.now }
{
    let (epoch, rest) = two_words(rest)?;
    let epoch = fields::epoch(epoch)?;
    let (call, rest) = two_words(rest)?;
    let call = fields::call_id(call)?;
    let (request, rest) = two_words(rest)?;
    let request = fields::request(request)?;
    let (inst, rest) = two_words(rest)?;
    let inst = fields::instance(inst)?;
    let (mode, (file, (stamp, ss))) = granted_open(rest)?;
    Some(Record::Grant {
        epoch,
        call,
        request,
        inst,
        mode,
        file,
        stamp,
        ss,
    })
}

/// What is granted: `MODE FILE STAMP SITE`.
fn granted_open(rest: &[u8]) -> Option<(Mode, (FileId, (Option<Stamp>, u8)))>
    ensures { result ≡ words_in mode_in (words_in file_in (words_in optional_stamp_in any_site_in)) rest.now }
{
    let (mode, rest) = two_words(rest)?;
    let mode = fields::mode(mode)?;
    let (file, rest) = two_words(rest)?;
    let file = fields::file(file)?;
    let (stamp, rest) = two_words(rest)?;
    let stamp = fields::optional_stamp(stamp)?;
    let ss = any_site(rest)?;
    Some((mode, (file, (stamp, ss))))
}

/// `EPOCH CALL REQUEST INSTANCE MODE FILE REFUSAL`.
pub(crate) fn refuse(alloc: Global, rest: &[u8]) -> Result<Option<Record>, NoMemory>
    ensures { IfOk result (λ o. o ≡ refuse_in rest.now) }
{
    let Some((epoch, rest)) = two_words(rest) else {
        return Ok(None);
    };
    let Some(epoch) = fields::epoch(epoch) else {
        return Ok(None);
    };
    let Some((call, rest)) = two_words(rest) else {
        return Ok(None);
    };
    let Some(call) = fields::call_id(call) else {
        return Ok(None);
    };
    let Some((request, rest)) = two_words(rest) else {
        return Ok(None);
    };
    let Some(request) = fields::request(request) else {
        return Ok(None);
    };
    let Some((inst, rest)) = two_words(rest) else {
        return Ok(None);
    };
    let Some(inst) = fields::instance(inst) else {
        return Ok(None);
    };
    let Some((mode, (file, why))) = refused_open(alloc, rest)? else {
        return Ok(None);
    };
    Ok(Some(Record::Refuse {
        epoch,
        call,
        request,
        inst,
        mode,
        file,
        why,
    }))
}

/// `MODE FILE REFUSAL`.
fn refused_open(alloc: Global, rest: &[u8]) -> Result<Option<(Mode, (FileId, Refusal))>, NoMemory>
    ensures { IfOk result (λ o. o ≡ refused_open_in rest.now) }
{
    let Some((mode, rest)) = two_words(rest) else {
        return Ok(None);
    };
    let Some(mode) = fields::mode(mode) else {
        return Ok(None);
    };
    let Some((file, rest)) = two_words(rest) else {
        return Ok(None);
    };
    let Some(file) = refused_file(file, mode) else {
        return Ok(None);
    };
    let Some(why) = refusals::refusal(alloc, rest)? else {
        return Ok(None);
    };
    Ok(Some((mode, (file, why))))
}

/// A file, which has no inode exactly where a make is refused.
fn refused_file(word: &[u8], mode: Mode) -> Option<FileId>
    ensures { result ≡ refused_file_in mode word.now }
{
    let file = fields::file_from(word, 0)?;
    if names_inode(mode, file.ino) {
        Some(file)
    } else {
        None
    }
}

fn names_inode(mode: Mode, ino: u16) -> bool
    ensures { result ≡ names_inode mode ino }
{
    match mode {
        Mode::Make => ino == 0,
        _ => ino > 0,
    }
}

/// `EPOCH INSTANCE NUMBER OPERATION RESULT`.
pub(crate) fn act(alloc: Global, rest: &[u8]) -> Result<Option<Record>, NoMemory>
    ensures { IfOk result (λ o. o ≡ act_record_in rest.now) }
{
    let Some((epoch, rest)) = two_words(rest) else {
        return Ok(None);
    };
    let Some(epoch) = fields::epoch(epoch) else {
        return Ok(None);
    };
    let Some((inst, rest)) = two_words(rest) else {
        return Ok(None);
    };
    let Some(inst) = fields::instance(inst) else {
        return Ok(None);
    };
    let Some((n, rest)) = two_words(rest) else {
        return Ok(None);
    };
    let Some(n) = fields::counted(n) else {
        return Ok(None);
    };
    let Some((op, outcome)) = operations::act(alloc, rest)? else {
        return Ok(None);
    };
    Ok(Some(Record::Act {
        epoch,
        inst,
        n,
        op,
        result: outcome,
    }))
}

/// `EPOCH INSTANCE FILE STAMP`.
pub(crate) fn release(rest: &[u8]) -> Option<Record>
    ensures { result ≡ release_in rest.now }
{
    let (epoch, rest) = two_words(rest)?;
    let epoch = fields::epoch(epoch)?;
    let (inst, rest) = two_words(rest)?;
    let inst = fields::instance(inst)?;
    let (file, rest) = two_words(rest)?;
    let file = fields::file(file)?;
    let stamp = fields::optional_stamp(rest)?;
    Some(Record::Release {
        epoch,
        inst,
        file,
        stamp,
    })
}

/// `SITE PROCESS CALL REPLY`.
pub(crate) fn answer(alloc: Global, rest: &[u8]) -> Result<Option<Record>, NoMemory>
    ensures { IfOk result (λ o. o ≡ answer_in rest.now) }
{
    let Some((site, rest)) = two_words(rest) else {
        return Ok(None);
    };
    let Some(site) = any_site(site) else {
        return Ok(None);
    };
    let Some((process, rest)) = two_words(rest) else {
        return Ok(None);
    };
    let Some(process) = fields::process(process) else {
        return Ok(None);
    };
    let Some((call, rest)) = two_words(rest) else {
        return Ok(None);
    };
    let Some(call) = fields::call_id(call) else {
        return Ok(None);
    };
    let Some(reply) = answers::reply(alloc, rest)? else {
        return Ok(None);
    };
    Ok(Some(Record::Answer {
        site,
        process,
        call,
        reply,
    }))
}
