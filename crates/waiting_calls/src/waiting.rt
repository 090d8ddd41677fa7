ghost use Rattle.std.specs.Prelude.{◌≡◌, ◌++◌, IfOk, OnOk};
ghost use Rattle.role_steps.specs.Requests.{operation_body, request_packets};
ghost use Rattle.wire_messages.specs.declared.body.Body.TheVariants as body;
ghost use Rattle.waiting_calls.specs.Called.{called};

use crate::caller::Caller;
use keyed_tables::{Keyed, waiting_key};
use locus_ids::sizes::SITES;
use locus_ids::{Bytes, FileId, NoMemory};
use role_steps::Asking;
use site_frame::SiteFrame;
use std::marker::Model;
use trace_book::{Op, What};
use wire_messages::version_vector::Vector;
use wire_messages::{Body, Opening, Outbox};

/// A call that waits for the answer to its current request.
#[derive(Drop)]
pub struct Waiting {
    pub caller: Caller,
    pub asking: Asking,
}

impl Model for Waiting {
    ghost use Rattle.role_steps.specs.declared.users.WaitingCall.{WaitingCall};
    ghost use Rattle.waiting_calls.specs.Called.{called};

    ghost Value = { WaitingCall };

    ghost view = { λ w. called w.caller w.asking };
}

impl Keyed for Waiting {
    ghost use Rattle.role_steps.specs.Requests.{waiting_key};

    ghost key = { waiting_key };

    fn key(&self) -> u64 {
        waiting_key(self.caller.process, self.caller.script.words())
    }
}

/// Sends a request of a call: looks and opens to the synchronization site of their file, and what concerns an instance to its
/// storage site.
pub fn send_request(
    frame: &SiteFrame,
    caller: &Caller,
    asking: &Asking,
    out: &mut Outbox,
) -> Result<(), NoMemory>
    ensures packets { OnOk result (out.new.packets ≡ out.old.packets ++ request_packets frame.now (called caller.now asking.now) asking.now) }
    ensures records { OnOk result (out.new.records ≡ out.old.records) }
{
    match asking {
        Asking::Look { file, what, take } => {
            let body = look_body(caller, *file, what.copy()?, *take);
            frame.send_to_sync(file.group, body, out)
        }
        Asking::Open { serial, file, how } => {
            let body = open_body(caller, *serial, *file, *how);
            frame.send_to_sync(file.group, body, out)
        }
        Asking::Op {
            serial,
            ss,
            number,
            op,
            seen,
        } => {
            let body = operation_body(&caller.copied, *serial, *number, op, seen)?;
            out.send(frame.packet(*ss, body))
        }
        Asking::Close { serial, ss } => {
            let body = Body::Close { serial: *serial };
            out.send(frame.packet(*ss, body))
        }
    }
}

/// A read whose bytes are at the site asks for their number alone.
fn operation_body(
    copied: &Option<Bytes>,
    serial: u32,
    number: u32,
    op: &Op,
    seen: &Vector<SITES>,
) -> Result<Body, NoMemory>
    ensures { IfOk result (λ made. made ≡ operation_body copied.now serial number op.now seen.now) }
{
    match op {
        Op::Read { at, len } if copied.is_some() => Ok(Body::ReadHeld {
            serial,
            number,
            at: *at,
            len: *len,
        }),
        _ => Ok(Body::Op {
            serial,
            number,
            op: op.copy()?,
            seen: *seen,
        }),
    }
}

fn look_body(caller: &Caller, file: FileId, what: What, take: u32) -> Body
    ensures { result ≡ body.Look caller.now.call caller.now.process caller.now.request take file what }
{
    Body::Look {
        call: caller.call,
        process: caller.process,
        request: caller.request,
        take,
        file,
        what,
    }
}

fn open_body(caller: &Caller, serial: u32, file: FileId, how: Opening) -> Body
    ensures { result ≡ body.Open serial caller.now.call caller.now.process caller.now.request file how }
{
    Body::Open {
        serial,
        call: caller.call,
        process: caller.process,
        request: caller.request,
        file,
        how,
    }
}
