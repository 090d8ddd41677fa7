//! The bodies of the kinds that form epochs, open and operate.

ghost use Rattle.std.specs.Prelude.{◌≡◌, ◌++◌, OnOk};
ghost use Rattle.field_codec.specs.Codec.{followed_by};
ghost use Rattle.wire_messages.specs.of_wire_fields.Parts.{files_or_new};
ghost use Rattle.wire_messages.specs.Answers.{is_new, modes};
ghost use Rattle.wire_messages.specs.Bodies.{body_bytes, FitsBody};

use crate::put_answers::{
    put_copies, put_granted_answer, put_mode, put_opened_answer, put_opening,
};
use field_codec::{put_u8, put_u16, put_u32};
use locus_ids::sizes::SITES;
use locus_ids::{Bytes, FileId, Kind, Mode, NoMemory, Serial, Sites, Stamp, Stamps};
use trace_book::{Op, Outcome};
use version_vector::Vector;
use wire_messages::{Body, Granted, OpenedAs, Opening, ReportedCopies};
use wire_parts::{
    put_as_held, put_ascending_stamps, put_file, put_held, put_instance, put_kind, put_op,
    put_outcome, put_set, put_stamp, put_vector,
};

pub fn put_report(out: &mut Bytes, group: u8, copies: &ReportedCopies) -> Result<(), NoMemory>
    requires { FitsBody (Body.Report group copies.now) }
    ensures { OnOk result (out.new ≡ out.old ++ body_bytes (Body.Report group copies.now)) }
{
    put_u8(out, group)?;
    put_copies(out, copies)
}

pub fn put_open(
    out: &mut Bytes,
    serial: u32,
    call: u32,
    process: u8,
    request: u16,
    file: FileId,
    how: &Opening,
) -> Result<(), NoMemory>
    ensures { OnOk result (out.new ≡ out.old ++ body_bytes (Body.Open serial call process request file how.now)) }
{
    put_u32(out, serial)?;
    put_u32(out, call)?;
    put_u8(out, process)?;
    put_u16(out, request)?;
    put_file(out, file)?;
    put_opening(out, how)
}

fn put_file_mode(out: &mut Bytes, file: FileId, mode: Mode) -> Result<(), NoMemory>
    ensures { OnOk result (out.new ≡ out.old ++ (followed_by files_or_new (λ file. modes (is_new file))).spell (file, mode)) }
{
    put_file(out, file)?;
    put_mode(out, mode)
}

pub fn put_open_ss(
    out: &mut Bytes,
    inst: Serial,
    file: FileId,
    mode: Mode,
    set: Sites,
    kind: Kind,
    base: Stamp,
    vector: &Vector<SITES>,
    parents: &Stamps,
) -> Result<(), NoMemory>
    requires { FitsBody (Body.OpenSs inst file mode set kind base vector.now parents.now) }
    ensures { OnOk result (out.new ≡ out.old ++ body_bytes (Body.OpenSs inst file mode set kind base vector.now parents.now)) }
{
    put_instance(out, inst)?;
    put_file_mode(out, file, mode)?;
    put_set(out, set)?;
    put_kind(out, kind)?;
    put_stamp(out, base)?;
    put_vector(out, vector)?;
    put_ascending_stamps(out, parents)
}

pub fn put_opened(out: &mut Bytes, inst: Serial, answer: &OpenedAs) -> Result<(), NoMemory>
    requires { FitsBody (Body.Opened inst answer.now) }
    ensures { OnOk result (out.new ≡ out.old ++ body_bytes (Body.Opened inst answer.now)) }
{
    put_instance(out, inst)?;
    put_opened_answer(out, answer)
}

pub fn put_open_done(out: &mut Bytes, serial: u32, answer: &Granted) -> Result<(), NoMemory>
    requires { FitsBody (Body.OpenDone serial answer.now) }
    ensures { OnOk result (out.new ≡ out.old ++ body_bytes (Body.OpenDone serial answer.now)) }
{
    put_u32(out, serial)?;
    put_granted_answer(out, answer)
}

pub fn put_operation(
    out: &mut Bytes,
    serial: u32,
    number: u32,
    op: &Op,
    seen: &Vector<SITES>,
) -> Result<(), NoMemory>
    requires { FitsBody (Body.Op serial number op.now seen.now) }
    ensures { OnOk result (out.new ≡ out.old ++ body_bytes (Body.Op serial number op.now seen.now)) }
{
    put_u32(out, serial)?;
    put_u32(out, number)?;
    put_op(out, op, seen)
}

pub fn put_op_done(
    out: &mut Bytes,
    serial: u32,
    number: u32,
    outcome: &Outcome,
) -> Result<(), NoMemory>
    requires { FitsBody (Body.OpDone serial number outcome.now) }
    ensures { OnOk result (out.new ≡ out.old ++ body_bytes (Body.OpDone serial number outcome.now)) }
{
    put_u32(out, serial)?;
    put_u32(out, number)?;
    put_outcome(out, outcome)
}

pub fn put_read_held(
    out: &mut Bytes,
    serial: u32,
    number: u32,
    at: u32,
    len: u16,
) -> Result<(), NoMemory>
    ensures { OnOk result (out.new ≡ out.old ++ body_bytes (Body.ReadHeld serial number at len)) }
{
    put_u32(out, serial)?;
    put_u32(out, number)?;
    put_held(out, at, len)
}

pub fn put_held_done(out: &mut Bytes, serial: u32, number: u32, len: u16) -> Result<(), NoMemory>
    ensures { OnOk result (out.new ≡ out.old ++ body_bytes (Body.AsHeld serial number len)) }
{
    put_u32(out, serial)?;
    put_u32(out, number)?;
    put_as_held(out, len)
}
