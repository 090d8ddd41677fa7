ghost use Rattle.std.specs.Prelude.{◌≡◌, ℕ, List, ◌++◌, OnOk, OnErr};
ghost use Rattle.trace_book.specs.Text.{record_text, entry_text};

use crate::call_records::{push_accept, push_act, push_answer, push_grant, push_look, push_refuse};
use crate::pieces::push_number;
use crate::site_records::{push_join, push_leave, push_packet, push_start, push_stopped, push_up};
use crate::version_records::{push_adopt, push_commit, push_release};
use locus_ids::{Bytes, NoMemory};
use trace_book::Record;

/// Adds the line of a record: the line's number, a space, the record's text, a line feed. An `Err` changes nothing.
pub fn render(what: &Record, line: u32, out: &mut Bytes) -> Result<(), NoMemory>
    ensures ok { OnOk result (out.new ≡ out.old ++ entry_text line what.now) }
    ensures err { OnErr result (out.new ≡ out.old) }
{
    let mut text = Bytes::new(out.allocator());
    render_onto(what, line, &mut text)?;
    out.append(text.as_slice())
}

/// Adds the line of a record. After `NoMemory` a part of it may stand there, so it takes no memory for the line alone.
pub fn render_onto(what: &Record, line: u32, out: &mut Bytes) -> Result<(), NoMemory>
    ensures { OnOk result (out.new ≡ out.old ++ entry_text line what.now) }
{
    push_number(out, line)?;
    out.push(b' ')?;
    push_record(out, what)?;
    out.push(b'\n')
}

/// Adds the text of a record.
pub fn push_record(out: &mut Bytes, what: &Record) -> Result<(), NoMemory>
    ensures { OnOk result (out.new ≡ out.old ++ record_text what.now) }
{
    match what {
        Record::Up { site, boot } => push_up(out, *site, *boot),
        Record::Stopped { site, cause } => push_stopped(out, *site, *cause),
        Record::Leave { site, epoch } => push_leave(out, *site, *epoch),
        Record::Join {
            site,
            epoch,
            members,
        } => push_join(out, *site, *epoch, members),
        Record::Start {
            epoch,
            group,
            copies,
        } => push_start(out, *epoch, *group, copies),
        Record::Accept {
            site,
            process,
            call,
            words,
        } => push_accept(out, *site, *process, *call, words),
        Record::Look {
            epoch,
            call,
            request,
            file,
            what,
            result: served,
        } => push_look(out, *epoch, *call, *request, *file, what, served),
        Record::Grant {
            epoch,
            call,
            request,
            inst,
            mode,
            file,
            stamp,
            ss,
        } => push_grant(
            out, *epoch, *call, *request, *inst, *mode, *file, *stamp, *ss,
        ),
        Record::Refuse {
            epoch,
            call,
            request,
            inst,
            mode,
            file,
            why,
        } => push_refuse(out, *epoch, *call, *request, *inst, *mode, *file, why),
        Record::Act {
            epoch,
            inst,
            n,
            op,
            result: outcome,
        } => push_act(out, *epoch, *inst, *n, op, outcome),
        Record::Commit {
            file,
            site,
            stamp,
            parents,
            content,
        } => push_commit(out, *file, *site, *stamp, parents, content),
        Record::Release {
            epoch,
            inst,
            file,
            stamp,
        } => push_release(out, *epoch, *inst, *file, *stamp),
        Record::Adopt { file, site, stamp } => push_adopt(out, *file, *site, *stamp),
        Record::Answer {
            site,
            process,
            call,
            reply,
        } => push_answer(out, *site, *process, *call, reply),
        Record::Packet {
            number,
            from,
            to,
            kind,
        } => push_packet(out, *number, *from, *to, *kind),
        Record::Void => out.append(b"void"),
        Record::Budget => out.append(b"budget"),
    }
}
