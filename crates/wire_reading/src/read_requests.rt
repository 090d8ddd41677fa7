//! The bodies of the kinds that form epochs, open and operate.

ghost use Rattle.field_codec.specs.Reads.{ReadsInMemory};
ghost use Rattle.wire_messages.specs.Bodies.{promise_bodies, refuse_bodies, install_bodies, report_bodies, report_ok_bodies, open_bodies, open_ss_bodies, opened_bodies, open_done_bodies, op_bodies, op_done_bodies, close_bodies};

use crate::read_answers::{read_copies, read_granted_answer, read_opened_answer};
use crate::read_openings::{is_new, read_mode, read_opening};
use field_codec::{Fields, ReadError};
use std::alloc::Global;
use wire_fields::{Asked, Gave};
use wire_messages::Body;
use wire_parts::{
    read_any_set, read_ascending_stamps, read_epoch, read_file_or_new, read_instance, read_kind,
    read_members, read_number, read_op, read_outcome, read_process, read_some_set, read_stamp,
    read_vector,
};

pub fn read_promise(fields: &mut Fields) -> Result<Body, ReadError>
    ensures { ReadsInMemory promise_bodies (λ body. body) fields.old result fields.new }
{
    let reach = read_any_set(fields)?;
    Ok(Body::Promise { reach })
}

pub fn read_refuse(fields: &mut Fields) -> Result<Body, ReadError>
    ensures { ReadsInMemory refuse_bodies (λ body. body) fields.old result fields.new }
{
    let promised = read_epoch(fields)?;
    Ok(Body::Refuse { promised })
}

pub fn read_install(fields: &mut Fields) -> Result<Body, ReadError>
    ensures { ReadsInMemory install_bodies (λ body. body) fields.old result fields.new }
{
    let members = read_members(fields)?;
    Ok(Body::Install { members })
}

pub fn read_report(alloc: Global, fields: &mut Fields) -> Result<Body, ReadError>
    ensures { ReadsInMemory report_bodies (λ body. body) fields.old result fields.new }
{
    let group = fields.get_u8()?;
    let copies = read_copies(alloc, fields)?;
    Ok(Body::Report { group, copies })
}

pub fn read_report_ok(fields: &mut Fields) -> Result<Body, ReadError>
    ensures { ReadsInMemory report_ok_bodies (λ body. body) fields.old result fields.new }
{
    let group = fields.get_u8()?;
    Ok(Body::ReportOk { group })
}

pub fn read_open(fields: &mut Fields) -> Result<Body, ReadError>
    ensures { ReadsInMemory open_bodies (λ body. body) fields.old result fields.new }
{
    let serial = read_number(fields)?;
    let call = fields.get_u32()?;
    let process = read_process(fields)?;
    let request = fields.get_u16()?;
    let file = read_file_or_new(fields)?;
    let how = read_opening(is_new(file), fields)?;
    Ok(Body::Open {
        serial,
        call,
        process,
        request,
        file,
        how,
    })
}

pub fn read_open_ss(alloc: Global, fields: &mut Fields) -> Result<Body, ReadError>
    ensures { ReadsInMemory open_ss_bodies (λ body. body) fields.old result fields.new }
{
    let inst = read_instance(fields)?;
    let file = read_file_or_new(fields)?;
    let mode = read_mode(is_new(file), fields)?;
    let set = read_some_set(fields)?;
    let kind = read_kind(fields)?;
    let base = read_stamp(fields)?;
    let vector = read_vector(fields)?;
    let parents = read_ascending_stamps(alloc, fields)?;
    Ok(Body::OpenSs {
        inst,
        file,
        mode,
        set,
        kind,
        base,
        vector,
        parents,
    })
}

pub fn read_opened(alloc: Global, fields: &mut Fields) -> Result<Body, ReadError>
    ensures { ReadsInMemory opened_bodies (λ body. body) fields.old result fields.new }
{
    let inst = read_instance(fields)?;
    let answer = read_opened_answer(alloc, fields)?;
    Ok(Body::Opened { inst, answer })
}

pub fn read_open_done(alloc: Global, fields: &mut Fields) -> Result<Body, ReadError>
    ensures { ReadsInMemory open_done_bodies (λ body. body) fields.old result fields.new }
{
    let serial = read_number(fields)?;
    let answer = read_granted_answer(alloc, fields)?;
    Ok(Body::OpenDone { serial, answer })
}

pub fn read_operation(alloc: Global, fields: &mut Fields) -> Result<Body, ReadError>
    ensures { ReadsInMemory op_bodies (λ body. body) fields.old result fields.new }
{
    let serial = read_number(fields)?;
    let number = fields.get_u32()?;
    match read_op(alloc, fields)? {
        Asked::Op { op, seen } => Ok(Body::Op {
            serial,
            number,
            op,
            seen,
        }),
        Asked::Held { at, len } => Ok(Body::ReadHeld {
            serial,
            number,
            at,
            len,
        }),
    }
}

pub fn read_op_done(alloc: Global, fields: &mut Fields) -> Result<Body, ReadError>
    ensures { ReadsInMemory op_done_bodies (λ body. body) fields.old result fields.new }
{
    let serial = read_number(fields)?;
    let number = fields.get_u32()?;
    match read_outcome(alloc, fields)? {
        Gave::Outcome { outcome } => Ok(Body::OpDone {
            serial,
            number,
            outcome,
        }),
        Gave::AsHeld { len } => Ok(Body::AsHeld {
            serial,
            number,
            len,
        }),
    }
}

pub fn read_close(fields: &mut Fields) -> Result<Body, ReadError>
    ensures { ReadsInMemory close_bodies (λ body. body) fields.old result fields.new }
{
    let serial = read_number(fields)?;
    Ok(Body::Close { serial })
}
