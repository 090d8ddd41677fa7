ghost use Rattle.field_codec.specs.Reads.{ReadsInMemory};
ghost use Rattle.wire_messages.specs.Bodies.{bodies};

use crate::read_replies::{
    read_close_done, read_closed, read_closed_ok, read_delta, read_have, read_look, read_look_done,
    read_look_ss, read_notify, read_page, read_pull, read_want,
};
use crate::read_requests::{
    read_close, read_install, read_op_done, read_open, read_open_done, read_open_ss, read_opened,
    read_operation, read_promise, read_refuse, read_report, read_report_ok,
};
use field_codec::{FieldFault, Fields, ReadError};
use std::alloc::Global;
use wire_messages::Body;

/// A body of the kind with this number.
#[tactic(auto, unfolding(wire_messages::specs::Bodies::body_kinds))]
pub fn read_body(alloc: Global, kind: u8, fields: &mut Fields) -> Result<Body, ReadError>
    ensures { ReadsInMemory (bodies kind) (λ body. body) fields.old result fields.new }
{
    match kind {
        1 => Ok(Body::Poll),
        2 => read_promise(fields),
        3 => read_refuse(fields),
        4 => read_install(fields),
        5 => Ok(Body::Joined),
        6 => read_report(alloc, fields),
        7 => read_report_ok(fields),
        8 => read_open(fields),
        9 => read_open_ss(alloc, fields),
        10 => read_opened(alloc, fields),
        11 => read_open_done(alloc, fields),
        12 => read_operation(alloc, fields),
        13 => read_op_done(alloc, fields),
        14 => read_close(fields),
        15 => read_closed(fields),
        16 => read_closed_ok(fields),
        17 => read_close_done(alloc, fields),
        18 => read_look(alloc, fields),
        19 => read_look_ss(alloc, fields),
        20 => read_look_done(alloc, fields),
        21 => read_notify(fields),
        22 => read_pull(fields),
        23 => read_page(alloc, fields),
        24 => read_have(fields),
        25 => read_want(fields),
        26 => read_delta(alloc, fields),
        _ => Err(ReadError::Field(FieldFault::Range { at: fields.at() })),
    }
}
