// What an outbox has, as text: each packet by its receiver, its kind and what it says, and then each record as a trace has it.
use crate::versions::push_pulling;
use locus_ids::{Bytes, FileId, Mode, Refusal, Serial, Stamp};
use std::alloc::Global;
use std::test::Fail;
use trace_book::{Op, Outcome, Record, Reply};
use wire_messages::{Body, CloseAnswer, Granted, LookAnswer, OpenedAs, Outbox};

/// What an outbox has, with `; ` between.
pub fn shown(alloc: Global, out: &Outbox) -> Result<String, Fail> {
    let mut text = String::new(alloc);
    for packet in out.packets().as_slice() {
        part(&mut text)?;
        let to = packet.to.get();
        write!(text, "{to} ")?;
        push_body(alloc, &mut text, &packet.body)?;
    }
    for record in out.records().as_slice() {
        part(&mut text)?;
        push_record(alloc, &mut text, record)?;
    }
    Ok(text)
}

/// What stands between two parts.
fn part(text: &mut String) -> Result<(), Fail> {
    if !text.is_empty() {
        text.push_str("; ")?;
    }
    Ok(())
}

/// The text that the bytes are.
fn push_bytes(text: &mut String, bytes: &Bytes) -> Result<(), Fail> {
    text.push_str(str::from_utf8(bytes.as_slice())?)?;
    Ok(())
}

/// A record as a trace has it.
fn push_record(alloc: Global, text: &mut String, record: &Record) -> Result<(), Fail> {
    let mut bytes = Bytes::new(alloc);
    trace_text::push_record(&mut bytes, record)?;
    push_bytes(text, &bytes)
}

/// An operation as a trace has it, behind its instance and the number 0.
pub fn push_op(alloc: Global, text: &mut String, inst: Serial, op: &Op) -> Result<(), Fail> {
    let Serial { us, serial } = inst;
    write!(text, "i{us}.{serial} 0 ")?;
    let mut bytes = Bytes::new(alloc);
    trace_text::push_op(&mut bytes, op)?;
    push_bytes(text, &bytes)
}

/// A reply as a trace has it.
pub fn push_reply(alloc: Global, text: &mut String, reply: Reply) -> Result<(), Fail> {
    push_answer(alloc, text, &reply)
}

fn push_answer(alloc: Global, text: &mut String, reply: &Reply) -> Result<(), Fail> {
    let mut bytes = Bytes::new(alloc);
    trace_text::push_reply(&mut bytes, reply)?;
    push_bytes(text, &bytes)
}

fn push_refusal(alloc: Global, text: &mut String, why: &Refusal) -> Result<(), Fail> {
    let mut bytes = Bytes::new(alloc);
    trace_text::push_refusal(&mut bytes, why)?;
    push_bytes(text, &bytes)
}

pub fn push_file(text: &mut String, file: FileId) -> Result<(), Fail> {
    let FileId { group, ino } = file;
    write!(text, "{group}.{ino}")?;
    Ok(())
}

pub(crate) fn push_stamp(text: &mut String, stamp: Stamp) -> Result<(), Fail> {
    let Stamp { site, n } = stamp;
    write!(text, " {site}.{n}")?;
    Ok(())
}

fn push_body(alloc: Global, text: &mut String, body: &Body) -> Result<(), Fail> {
    match body {
        Body::Poll | Body::Promise { .. } | Body::Refuse { .. } | Body::Install { .. } => {
            push_forming(text, body)
        }
        Body::Joined | Body::Report { .. } | Body::ReportOk { .. } => push_joining(text, body),
        Body::Open { .. } | Body::OpenSs { .. } | Body::Opened { .. } | Body::OpenDone { .. } => {
            push_opening(alloc, text, body)
        }
        Body::Op { .. } | Body::OpDone { .. } | Body::ReadHeld { .. } | Body::AsHeld { .. } => {
            push_operation(alloc, text, body)
        }
        Body::Close { .. } | Body::Closed { .. } => push_closing(text, body),
        Body::ClosedOk { .. } | Body::CloseDone { .. } => push_closed(alloc, text, body),
        Body::Look { .. } | Body::LookSs { .. } | Body::LookDone { .. } => {
            push_looking(alloc, text, body)
        }
        _ => push_pulling(text, body),
    }
}

fn push_forming(text: &mut String, body: &Body) -> Result<(), Fail> {
    match body {
        Body::Poll => text.push_str("poll")?,
        Body::Promise { reach } => {
            let reach = reach.0;
            write!(text, "promise {reach:b}")?;
        }
        Body::Refuse { promised } => {
            let number = promised.number;
            write!(text, "refuse {number}")?;
        }
        _ => text.push_str("install")?,
    }
    Ok(())
}

fn push_joining(text: &mut String, body: &Body) -> Result<(), Fail> {
    match body {
        Body::Report { group, copies } => {
            let count = copies.len();
            write!(text, "report {group} of {count}")?;
        }
        Body::ReportOk { group } => write!(text, "reportok {group}")?,
        _ => text.push_str("joined")?,
    }
    Ok(())
}

fn mode_word(mode: Mode) -> &'static str {
    match mode {
        Mode::Read => "r",
        Mode::Write => "w",
        Mode::Resolve => "x",
        Mode::Mend => "m",
        Mode::Make => "n",
    }
}

fn push_opening(alloc: Global, text: &mut String, body: &Body) -> Result<(), Fail> {
    match body {
        Body::Open { serial, file, .. } => {
            write!(text, "open {serial} ")?;
            push_file(text, *file)
        }
        Body::OpenSs {
            inst,
            file,
            mode,
            base,
            ..
        } => push_storage_open(text, *inst, *file, *mode, *base),
        Body::Opened { inst, answer } => push_opened(alloc, text, *inst, answer),
        Body::OpenDone { serial, answer } => {
            write!(text, "opendone {serial} ")?;
            push_granted(alloc, text, answer)
        }
        _ => Ok(()),
    }
}

fn push_storage_open(
    text: &mut String,
    inst: Serial,
    file: FileId,
    mode: Mode,
    base: Stamp,
) -> Result<(), Fail> {
    let Serial { us, serial } = inst;
    let word = mode_word(mode);
    write!(text, "openss {us}.{serial} {word} ")?;
    push_file(text, file)?;
    push_stamp(text, base)
}

fn push_opened(
    alloc: Global,
    text: &mut String,
    inst: Serial,
    answer: &OpenedAs,
) -> Result<(), Fail> {
    let Serial { us, serial } = inst;
    write!(text, "opened {us}.{serial} ")?;
    match answer {
        OpenedAs::Open { ino, size } => {
            write!(text, "{ino} of {size}")?;
            Ok(())
        }
        OpenedAs::No { why } => push_refusal(alloc, text, why),
    }
}

fn push_granted(alloc: Global, text: &mut String, answer: &Granted) -> Result<(), Fail> {
    match answer {
        Granted::Open {
            ss,
            ino,
            size,
            stamp,
            ..
        } => {
            let ss = ss.get();
            write!(text, "{ino} of {size} at {ss}")?;
            push_stamp(text, *stamp)
        }
        Granted::No { why } => push_refusal(alloc, text, why),
    }
}

fn push_operation(alloc: Global, text: &mut String, body: &Body) -> Result<(), Fail> {
    match body {
        Body::Op { serial, number, .. } => {
            write!(text, "op {serial} {number}")?;
            Ok(())
        }
        Body::OpDone {
            serial,
            number,
            outcome,
        } => {
            write!(text, "opdone {serial} {number} ")?;
            push_outcome(alloc, text, outcome)
        }
        Body::ReadHeld {
            serial,
            number,
            at,
            len,
        } => {
            write!(text, "readheld {serial} {number} {at} {len}")?;
            Ok(())
        }
        Body::AsHeld {
            serial,
            number,
            len,
        } => {
            write!(text, "asheld {serial} {number} {len}")?;
            Ok(())
        }
        _ => Ok(()),
    }
}

fn push_outcome(alloc: Global, text: &mut String, outcome: &Outcome) -> Result<(), Fail> {
    if let Outcome::Found { ino, .. } = outcome {
        write!(text, "found {ino}")?;
        return Ok(());
    }
    let mut bytes = Bytes::new(alloc);
    trace_text::push_outcome(&mut bytes, outcome)?;
    push_bytes(text, &bytes)
}

fn push_closing(text: &mut String, body: &Body) -> Result<(), Fail> {
    match body {
        Body::Close { serial } => write!(text, "close {serial}")?,
        Body::Closed { inst, made } => {
            let Serial { us, serial } = *inst;
            write!(text, "closed {us}.{serial}")?;
            if let Some(made) = made {
                push_stamp(text, made.stamp)?;
            }
        }
        _ => (),
    }
    Ok(())
}

fn push_closed(alloc: Global, text: &mut String, body: &Body) -> Result<(), Fail> {
    match body {
        Body::ClosedOk { inst } => {
            let Serial { us, serial } = *inst;
            write!(text, "closedok {us}.{serial}")?;
            Ok(())
        }
        Body::CloseDone { serial, answer } => {
            write!(text, "closedone {serial} ")?;
            push_close_answer(alloc, text, answer)
        }
        _ => Ok(()),
    }
}

fn push_close_answer(alloc: Global, text: &mut String, answer: &CloseAnswer) -> Result<(), Fail> {
    match answer {
        CloseAnswer::Nothing => {
            text.push_str("ok")?;
            Ok(())
        }
        CloseAnswer::Made { stamp } => {
            text.push_str("ok")?;
            push_stamp(text, *stamp)
        }
        CloseAnswer::No { why } => push_refusal(alloc, text, why),
    }
}

fn push_looking(alloc: Global, text: &mut String, body: &Body) -> Result<(), Fail> {
    match body {
        Body::Look {
            call,
            request,
            take,
            file,
            ..
        } => {
            write!(text, "look {call}.{request}.{take} ")?;
            push_file(text, *file)
        }
        Body::LookSs {
            us,
            file,
            serve,
            ..
        } => {
            let us = us.get();
            write!(text, "lookss {us} ")?;
            push_file(text, *file)?;
            push_stamp(text, *serve)
        }
        Body::LookDone {
            call,
            request,
            take,
            answer,
        } => {
            write!(text, "lookdone {call}.{request}.{take} ")?;
            push_look_answer(alloc, text, answer)
        }
        _ => Ok(()),
    }
}

fn push_look_answer(alloc: Global, text: &mut String, answer: &LookAnswer) -> Result<(), Fail> {
    match answer {
        LookAnswer::Found { ino, .. } => write!(text, "found {ino}")?,
        LookAnswer::Content { bytes } => {
            let count = bytes.len();
            write!(text, "content of {count}")?;
        }
        LookAnswer::Stat { size, stamp, .. } => {
            write!(text, "stat {size}")?;
            push_stamp(text, *stamp)?;
        }
        LookAnswer::Moved => text.push_str("moved")?,
        LookAnswer::No { why } => push_refusal(alloc, text, why)?,
    }
    Ok(())
}
