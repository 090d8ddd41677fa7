// What a trace tells of calls and of open files, as text at the end.
ghost use Rattle.std.specs.Prelude.{◌≡◌, ℕ, List, ◌++◌, OnOk};
ghost use Rattle.trace_book.specs.Text.{call_id_text, epoch_text, file_text, gap, mode_text, number, record_text, serial_text};
ghost use Rattle.trace_book.specs.declared.record.Record.TheVariants.{Accept, Look, Grant, Refuse, Act, Answer};

use crate::answers::{push_outcome, push_refusal, push_reply, push_served};
use crate::phrases::{
    push_next_call, push_next_file, push_next_number, push_next_serial, push_word_epoch,
    push_word_numbers,
};
use crate::pieces::{push_epoch, push_mode, push_optional_stamp, push_serial};
use crate::requests::{push_call_words, push_op, push_what};
use locus_ids::{Bytes, CallId, EpochId, FileId, Mode, NoMemory, Refusal, Serial, Stamp};
use trace_book::{Call, Op, Outcome, Reply, Served, What};

pub fn push_accept(
    out: &mut Bytes,
    site: u8,
    process: u8,
    call: CallId,
    words: &Call,
) -> Result<(), NoMemory>
    ensures { OnOk result (out.new ≡ out.old ++ record_text (Accept site process call words.now)) }
{
    push_word_numbers(out, b"call ", site as u32, process as u32)?;
    push_next_call(out, call)?;
    out.push(b' ')?;
    push_call_words(out, words)
}

pub fn push_look(
    out: &mut Bytes,
    epoch: EpochId,
    call: CallId,
    request: u16,
    file: FileId,
    what: &What,
    served: &Served,
) -> Result<(), NoMemory>
    ensures { OnOk result (out.new ≡ out.old ++ record_text (Look epoch call request file what.now served.now)) }
{
    out.append(b"look ")?;
    push_asked(out, epoch, call, request)?;
    push_next_file(out, file)?;
    out.push(b' ')?;
    push_what(out, what)?;
    out.push(b' ')?;
    push_served(out, served)
}

/// A call's request: the epoch, the call, and the request's number in it.
fn push_asked(out: &mut Bytes, epoch: EpochId, call: CallId, request: u16) -> Result<(), NoMemory>
    ensures { OnOk result (out.new ≡ out.old ++ (epoch_text epoch ++ gap ++ call_id_text call ++ gap ++ number request)) }
{
    push_epoch(out, epoch)?;
    push_next_call(out, call)?;
    push_next_number(out, request as u32)
}

/// What is opened: the instance, its mode and its file.
fn push_opened(out: &mut Bytes, inst: Serial, mode: Mode, file: FileId) -> Result<(), NoMemory>
    ensures { OnOk result (out.new ≡ out.old ++ (serial_text inst ++ gap ++ mode_text mode ++ gap ++ file_text file)) }
{
    push_serial(out, inst)?;
    out.push(b' ')?;
    push_mode(out, mode)?;
    push_next_file(out, file)
}

pub fn push_grant(
    out: &mut Bytes,
    epoch: EpochId,
    call: CallId,
    request: u16,
    inst: Serial,
    mode: Mode,
    file: FileId,
    stamp: Option<Stamp>,
    ss: u8,
) -> Result<(), NoMemory>
    ensures { OnOk result (out.new ≡ out.old ++ record_text (Grant epoch call request inst mode file stamp ss)) }
{
    out.append(b"grant ")?;
    push_asked(out, epoch, call, request)?;
    out.push(b' ')?;
    push_opened(out, inst, mode, file)?;
    out.push(b' ')?;
    push_optional_stamp(out, stamp)?;
    push_next_number(out, ss as u32)
}

pub fn push_refuse(
    out: &mut Bytes,
    epoch: EpochId,
    call: CallId,
    request: u16,
    inst: Serial,
    mode: Mode,
    file: FileId,
    why: &Refusal,
) -> Result<(), NoMemory>
    ensures { OnOk result (out.new ≡ out.old ++ record_text (Refuse epoch call request inst mode file why.now)) }
{
    out.append(b"refuse ")?;
    push_asked(out, epoch, call, request)?;
    out.push(b' ')?;
    push_opened(out, inst, mode, file)?;
    out.push(b' ')?;
    push_refusal(out, why)
}

pub fn push_act(
    out: &mut Bytes,
    epoch: EpochId,
    inst: Serial,
    n: u32,
    op: &Op,
    outcome: &Outcome,
) -> Result<(), NoMemory>
    ensures { OnOk result (out.new ≡ out.old ++ record_text (Act epoch inst n op.now outcome.now)) }
{
    push_word_epoch(out, b"act ", epoch)?;
    push_next_serial(out, inst)?;
    push_next_number(out, n)?;
    out.push(b' ')?;
    push_op(out, op)?;
    out.push(b' ')?;
    push_outcome(out, outcome)
}

pub fn push_answer(
    out: &mut Bytes,
    site: u8,
    process: u8,
    call: CallId,
    reply: &Reply,
) -> Result<(), NoMemory>
    ensures { OnOk result (out.new ≡ out.old ++ record_text (Answer site process call reply.now)) }
{
    push_word_numbers(out, b"reply ", site as u32, process as u32)?;
    push_next_call(out, call)?;
    out.push(b' ')?;
    push_reply(out, reply)
}
