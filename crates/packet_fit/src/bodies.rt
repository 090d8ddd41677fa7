ghost use Rattle.std.specs.Prelude.{◌↔◌, IsTrue};
ghost use Rattle.wire_messages.specs.Bodies.{FitsBody};

use crate::answers::{
    is_close_answer, is_granted_answer, is_look_answer, is_made_answer, is_mode, is_opened_answer,
    is_opening,
};
use crate::fields::{
    is_epoch, is_file, is_file_or_new, is_instance, is_number, is_process, is_site, is_size,
    is_some_set, is_stamp, is_vector, is_version,
};
use crate::lists::{are_ascending, are_copies, are_page_numbers};
use crate::memberships::are_members;
use crate::operations::{is_kind, is_operation, is_outcome, is_read, is_what};
use locus_ids::sizes::{PAGE_BYTES, SITES};
use locus_ids::{Bytes, EpochId, FileId, Kind, Mode, Serial, SiteId, Sites, Stamp, Stamps};
use trace_book::{Op, Outcome, What};
use version_vector::Vector;
use wire_messages::{
    Body, CloseAnswer, Granted, LookAnswer, MadeVersion, OpenedAs, Opening, PageNumbers,
    ReportedCopies,
};

fn is_promise(reach: Sites) -> bool
    ensures { IsTrue result ↔ FitsBody (Body.Promise reach) }
{
    reach.0 <= 65_535
}

fn is_report_ok(group: u8) -> bool
    ensures { IsTrue result ↔ FitsBody (Body.ReportOk group) }
{
    group <= 255
}

fn is_refuse(promised: EpochId) -> bool
    ensures { IsTrue result ↔ FitsBody (Body.Refuse promised) }
{
    is_epoch(promised)
}

fn is_report(group: u8, copies: &ReportedCopies) -> bool
    ensures { IsTrue result ↔ FitsBody (Body.Report group copies.now) }
{
    group <= 255 && are_copies(copies)
}

fn is_open(serial: u32, call: u32, process: u8, request: u16, file: FileId, how: &Opening) -> bool
    ensures { IsTrue result ↔ FitsBody (Body.Open serial call process request file how.now) }
{
    is_number(serial) && is_process(process) && is_file_or_new(file) && is_opening(file, how)
}

fn is_open_ss(
    inst: Serial,
    file: FileId,
    mode: Mode,
    set: Sites,
    kind: Kind,
    base: Stamp,
    vector: &Vector<SITES>,
    parents: &Stamps,
) -> bool
    ensures { IsTrue result ↔ FitsBody (Body.OpenSs inst file mode set kind base vector.now parents.now) }
{
    is_instance(inst)
        && is_file_or_new(file)
        && is_mode(file, mode)
        && is_some_set(set)
        && is_kind(kind)
        && is_stamp(base)
        && is_vector(vector)
        && are_ascending(parents)
}

fn is_opened(inst: Serial, answer: &OpenedAs) -> bool
    ensures { IsTrue result ↔ FitsBody (Body.Opened inst answer.now) }
{
    is_instance(inst) && is_opened_answer(answer)
}

fn is_open_done(serial: u32, answer: &Granted) -> bool
    ensures { IsTrue result ↔ FitsBody (Body.OpenDone serial answer.now) }
{
    is_number(serial) && is_granted_answer(answer)
}

fn is_op(serial: u32, number: u32, op: &Op, seen: &Vector<SITES>) -> bool
    ensures { IsTrue result ↔ FitsBody (Body.Op serial number op.now seen.now) }
{
    is_number(serial) && is_operation(op, seen)
}

fn is_op_done(serial: u32, number: u32, outcome: &Outcome) -> bool
    ensures { IsTrue result ↔ FitsBody (Body.OpDone serial number outcome.now) }
{
    is_number(serial) && is_outcome(outcome)
}

fn is_read_held(serial: u32, number: u32, at: u32, len: u16) -> bool
    ensures { IsTrue result ↔ FitsBody (Body.ReadHeld serial number at len) }
{
    is_number(serial) && is_read(at, len)
}

fn is_as_held(serial: u32, number: u32, len: u16) -> bool
    ensures { IsTrue result ↔ FitsBody (Body.AsHeld serial number len) }
{
    is_number(serial)
}

fn is_close(serial: u32) -> bool
    ensures { IsTrue result ↔ FitsBody (Body.Close serial) }
{
    is_number(serial)
}

fn is_closed(inst: Serial, made: &Option<MadeVersion>) -> bool
    ensures { IsTrue result ↔ FitsBody (Body.Closed inst made.now) }
{
    is_instance(inst) && is_made_answer(made)
}

fn is_closed_ok(inst: Serial) -> bool
    ensures { IsTrue result ↔ FitsBody (Body.ClosedOk inst) }
{
    is_instance(inst)
}

fn is_close_done(serial: u32, answer: &CloseAnswer) -> bool
    ensures { IsTrue result ↔ FitsBody (Body.CloseDone serial answer.now) }
{
    is_number(serial) && is_close_answer(answer)
}

fn is_look(call: u32, process: u8, request: u16, take: u32, file: FileId, what: &What) -> bool
    ensures { IsTrue result ↔ FitsBody (Body.Look call process request take file what.now) }
{
    is_process(process) && is_file(file) && is_what(what)
}

fn is_look_ss(
    us: SiteId,
    call: u32,
    process: u8,
    request: u16,
    take: u32,
    file: FileId,
    what: &What,
    serve: Stamp,
) -> bool
    ensures { IsTrue result ↔ FitsBody (Body.LookSs us call process request take file what.now serve) }
{
    is_site(us.get()) && is_process(process) && is_file(file) && is_what(what) && is_stamp(serve)
}

fn is_look_done(call: u32, request: u16, take: u32, answer: &LookAnswer) -> bool
    ensures { IsTrue result ↔ FitsBody (Body.LookDone call request take answer.now) }
{
    is_look_answer(answer)
}

fn is_notice(
    file: FileId,
    kind: Kind,
    set: Sites,
    size: u32,
    stamp: Stamp,
    vector: &Vector<SITES>,
    holder: SiteId,
) -> bool
    ensures { IsTrue result ↔ FitsBody (Body.Notify file kind set size stamp vector.now holder) }
{
    is_file(file)
        && is_kind(kind)
        && is_some_set(set)
        && is_size(size)
        && is_version(stamp, vector)
        && is_site(holder.get())
}

fn is_pull(file: FileId, stamp: Stamp, page: u8) -> bool
    ensures { IsTrue result ↔ FitsBody (Body.Pull file stamp page) }
{
    is_file(file) && is_stamp(stamp)
}

fn is_page(file: FileId, stamp: Stamp, page: u8, bytes: &Bytes) -> bool
    ensures { IsTrue result ↔ FitsBody (Body.Page file stamp page bytes.now) }
{
    is_file(file) && is_stamp(stamp) && 1 <= bytes.len() && bytes.len() <= PAGE_BYTES
}

fn is_have(file: FileId, stamp: Stamp) -> bool
    ensures { IsTrue result ↔ FitsBody (Body.Have file stamp) }
{
    is_file(file) && is_stamp(stamp)
}

fn is_want(file: FileId, wanted: Stamp, own: Stamp) -> bool
    ensures { IsTrue result ↔ FitsBody (Body.Want file wanted own) }
{
    is_file(file) && is_stamp(wanted) && is_stamp(own)
}

fn is_delta(file: FileId, wanted: Stamp, pages: &PageNumbers) -> bool
    ensures { IsTrue result ↔ FitsBody (Body.Delta file wanted pages.now) }
{
    is_file(file) && is_stamp(wanted) && are_page_numbers(pages)
}

/// Each field of the body is one of its format.
pub fn is_body(body: &Body) -> bool
    ensures { IsTrue result ↔ FitsBody body.now }
{
    match body {
        Body::Poll => true,
        Body::Promise { reach } => is_promise(*reach),
        Body::Joined => true,
        Body::ReportOk { group } => is_report_ok(*group),
        Body::Refuse { promised } => is_refuse(*promised),
        Body::Install { members } => are_members(members),
        Body::Report { group, copies } => is_report(*group, copies),
        Body::Open {
            serial,
            call,
            process,
            request,
            file,
            how,
        } => is_open(*serial, *call, *process, *request, *file, how),
        Body::OpenSs {
            inst,
            file,
            mode,
            set,
            kind,
            base,
            vector,
            parents,
        } => is_open_ss(*inst, *file, *mode, *set, *kind, *base, vector, parents),
        Body::Opened { inst, answer } => is_opened(*inst, answer),
        Body::OpenDone { serial, answer } => is_open_done(*serial, answer),
        Body::Op {
            serial,
            number,
            op,
            seen,
        } => is_op(*serial, *number, op, seen),
        Body::OpDone {
            serial,
            number,
            outcome,
        } => is_op_done(*serial, *number, outcome),
        Body::ReadHeld {
            serial,
            number,
            at,
            len,
        } => is_read_held(*serial, *number, *at, *len),
        Body::AsHeld {
            serial,
            number,
            len,
        } => is_as_held(*serial, *number, *len),
        Body::Close { serial } => is_close(*serial),
        Body::Closed { inst, made } => is_closed(*inst, made),
        Body::ClosedOk { inst } => is_closed_ok(*inst),
        Body::CloseDone { serial, answer } => is_close_done(*serial, answer),
        Body::Look {
            call,
            process,
            request,
            take,
            file,
            what,
        } => is_look(*call, *process, *request, *take, *file, what),
        Body::LookSs {
            us,
            call,
            process,
            request,
            take,
            file,
            what,
            serve,
        } => is_look_ss(*us, *call, *process, *request, *take, *file, what, *serve),
        Body::LookDone {
            call,
            request,
            take,
            answer,
        } => is_look_done(*call, *request, *take, answer),
        Body::Notify {
            file,
            kind,
            set,
            size,
            stamp,
            vector,
            holder,
        } => is_notice(*file, *kind, *set, *size, *stamp, vector, *holder),
        Body::Pull { file, stamp, page } => is_pull(*file, *stamp, *page),
        Body::Page {
            file,
            stamp,
            page,
            bytes,
        } => is_page(*file, *stamp, *page, bytes),
        Body::Have { file, stamp } => is_have(*file, *stamp),
        Body::Want { file, wanted, own } => is_want(*file, *wanted, *own),
        Body::Delta {
            file,
            wanted,
            pages,
        } => is_delta(*file, *wanted, pages),
    }
}
