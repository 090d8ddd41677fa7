ghost use Rattle.std.specs.Prelude.{◌≡◌, ◌++◌, OnOk};
ghost use Rattle.wire_messages.specs.Bodies.{kind_number, body_bytes, FitsBody};

use crate::put_replies::{
    put_close_done, put_closed, put_delta, put_have, put_look, put_look_done, put_look_ss,
    put_notify, put_page, put_pull, put_want,
};
use crate::put_requests::{
    put_held_done, put_op_done, put_open, put_open_done, put_open_ss, put_opened, put_operation,
    put_read_held, put_report,
};
use field_codec::{put_u8, put_u32};
use locus_ids::{Bytes, NoMemory};
use wire_messages::Body;
use wire_parts::{put_epoch, put_instance, put_members, put_set};

/// The number of a kind of body.
pub fn kind_number(body: &Body) -> u8
    ensures { result ≡ kind_number body.now }
{
    match body {
        Body::Poll => 1,
        Body::Promise { .. } => 2,
        Body::Refuse { .. } => 3,
        Body::Install { .. } => 4,
        Body::Joined => 5,
        Body::Report { .. } => 6,
        Body::ReportOk { .. } => 7,
        Body::Open { .. } => 8,
        Body::OpenSs { .. } => 9,
        Body::Opened { .. } => 10,
        Body::OpenDone { .. } => 11,
        Body::Op { .. } => 12,
        Body::OpDone { .. } => 13,
        Body::ReadHeld { .. } => 12,
        Body::AsHeld { .. } => 13,
        Body::Close { .. } => 14,
        Body::Closed { .. } => 15,
        Body::ClosedOk { .. } => 16,
        Body::CloseDone { .. } => 17,
        Body::Look { .. } => 18,
        Body::LookSs { .. } => 19,
        Body::LookDone { .. } => 20,
        Body::Notify { .. } => 21,
        Body::Pull { .. } => 22,
        Body::Page { .. } => 23,
        Body::Have { .. } => 24,
        Body::Want { .. } => 25,
        Body::Delta { .. } => 26,
    }
}

/// Adds the bytes of a body at the end.
pub fn put_body(out: &mut Bytes, body: &Body) -> Result<(), NoMemory>
    requires { FitsBody body.now }
    ensures { OnOk result (out.new ≡ out.old ++ body_bytes body.now) }
{
    match body {
        Body::Poll => Ok(()),
        Body::Promise { reach } => put_set(out, *reach),
        Body::Refuse { promised } => put_epoch(out, *promised),
        Body::Install { members } => put_members(out, members),
        Body::Joined => Ok(()),
        Body::Report { group, copies } => put_report(out, *group, copies),
        Body::ReportOk { group } => put_u8(out, *group),
        Body::Open {
            serial,
            call,
            process,
            request,
            file,
            how,
        } => put_open(out, *serial, *call, *process, *request, *file, how),
        Body::OpenSs {
            inst,
            file,
            mode,
            set,
            kind,
            base,
            vector,
            parents,
        } => put_open_ss(
            out, *inst, *file, *mode, *set, *kind, *base, vector, parents,
        ),
        Body::Opened { inst, answer } => put_opened(out, *inst, answer),
        Body::OpenDone { serial, answer } => put_open_done(out, *serial, answer),
        Body::Op {
            serial,
            number,
            op,
            seen,
        } => put_operation(out, *serial, *number, op, seen),
        Body::OpDone {
            serial,
            number,
            outcome,
        } => put_op_done(out, *serial, *number, outcome),
        Body::ReadHeld {
            serial,
            number,
            at,
            len,
        } => put_read_held(out, *serial, *number, *at, *len),
        Body::AsHeld {
            serial,
            number,
            len,
        } => put_held_done(out, *serial, *number, *len),
        Body::Close { serial } => put_u32(out, *serial),
        Body::Closed { inst, made } => put_closed(out, *inst, made),
        Body::ClosedOk { inst } => put_instance(out, *inst),
        Body::CloseDone { serial, answer } => put_close_done(out, *serial, answer),
        Body::Look {
            call,
            process,
            request,
            take,
            file,
            what,
        } => put_look(out, *call, *process, *request, *take, *file, what),
        Body::LookSs {
            us,
            call,
            process,
            request,
            take,
            file,
            what,
            serve,
        } => put_look_ss(
            out, *us, *call, *process, *request, *take, *file, what, *serve,
        ),
        Body::LookDone {
            call,
            request,
            take,
            answer,
        } => put_look_done(out, *call, *request, *take, answer),
        Body::Notify {
            file,
            kind,
            set,
            size,
            stamp,
            vector,
            holder,
        } => put_notify(out, *file, *kind, *set, *size, *stamp, vector, *holder),
        Body::Pull { file, stamp, page } => put_pull(out, *file, *stamp, *page),
        Body::Page {
            file,
            stamp,
            page,
            bytes,
        } => put_page(out, *file, *stamp, *page, bytes),
        Body::Have { file, stamp } => put_have(out, *file, *stamp),
        Body::Want { file, wanted, own } => put_want(out, *file, *wanted, *own),
        Body::Delta {
            file,
            wanted,
            pages,
        } => put_delta(out, *file, *wanted, pages),
    }
}
