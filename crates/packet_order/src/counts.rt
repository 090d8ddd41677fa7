// The counts in a packet have numbers of their sizes: their types say so.
ghost use Rattle.std.specs.Prelude.{◌<◌, ◌^◌};
ghost use Rattle.packet_order.specs.Counts.{IsCounted};

use locus_ids::Serial;
use wire_messages::Body;

/// Reads the number of an instance.
fn count_of(inst: Serial)
    ensures { inst.serial < 2 ^ 32 }
{
    let _serial = inst.serial;
}

/// Reads each count in the body.
pub(crate) fn count(body: &Body)
    ensures { IsCounted body.now }
{
    match body {
        Body::Open {
            serial,
            call,
            request,
            ..
        } => {
            let _serial = *serial;
            let _call = *call;
            let _request = *request;
        }
        Body::OpenSs { inst, .. } => {
            count_of(*inst);
        }
        Body::Opened { inst, .. } => {
            count_of(*inst);
        }
        Body::OpenDone { serial, .. } => {
            let _serial = *serial;
        }
        Body::Op { serial, number, .. } => {
            let _serial = *serial;
            let _number = *number;
        }
        Body::OpDone { serial, number, .. } => {
            let _serial = *serial;
            let _number = *number;
        }
        Body::ReadHeld { serial, number, .. } => {
            let _serial = *serial;
            let _number = *number;
        }
        Body::AsHeld { serial, number, .. } => {
            let _serial = *serial;
            let _number = *number;
        }
        Body::Close { serial } => {
            let _serial = *serial;
        }
        Body::Closed { inst, .. } => {
            count_of(*inst);
        }
        Body::ClosedOk { inst } => {
            count_of(*inst);
        }
        Body::CloseDone { serial, .. } => {
            let _serial = *serial;
        }
        Body::Look {
            call,
            request,
            take,
            ..
        } => {
            let _call = *call;
            let _request = *request;
            let _take = *take;
        }
        Body::LookSs {
            call,
            request,
            take,
            ..
        } => {
            let _call = *call;
            let _request = *request;
            let _take = *take;
        }
        Body::LookDone {
            call,
            request,
            take,
            ..
        } => {
            let _call = *call;
            let _request = *request;
            let _take = *take;
        }
        _ => {}
    }
}
