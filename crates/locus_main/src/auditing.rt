ghost use Rattle.std.specs.Prelude.{◌≡◌, ◌≢◌, ◌⊎◌, true};
ghost use Rattle.locus_io.specs.Causes.{Rose};
ghost use Rattle.locus_main.specs.Audits.{AuditPromises, status_of_audit as audit_status};
ghost use Rattle.input_run.specs.Codes.{ends_written};

use audit_run::{AuditFault, audit as answer_of};
use input_run::{Limited, Status, send};
use locus_io::{Sink, Source};
use std::alloc::Global;

/// What an audit comes to where there is no answer.
fn status_of_audit(fault: AuditFault) -> Status
    ensures { result ≡ audit_status fault }
{
    match fault {
        AuditFault::BadLine { line } => Status::BadLine { line },
        AuditFault::LongLine => Status::Limit {
            what: Limited::Line,
        },
        AuditFault::ManyLines => Status::Limit {
            what: Limited::Lines,
        },
        AuditFault::ReadFault => Status::ReadFault,
        AuditFault::NoMemory => Status::NoMemory,
    }
}

/// Judges a trace that anybody wrote: reads the input to its end, and then writes the answer.
#[tactic(none)]
pub fn audit<S: Source, K: Sink>(alloc: Global, source: &mut S, sink: &mut K) -> Status
    ensures promises { AuditPromises result (S.left source.old) (S.left source.new) (K.taken sink.old) (K.taken sink.new) }
    ensures words { result ≢ Status.BadWords }
    ensures flushed { result ≡ Status.Ok → K.flushed sink.new ≡ K.taken sink.new }
    ensures nothing_held { ends_written result ≡ true → (sink.new ≡ sink.old) ⊎ (K.flushed sink.new ≡ K.taken sink.new) }
    ensures read_fault { result ≡ Status.ReadFault → Rose (S.faults source.old) (S.faults source.new) }
    ensures write_fault { result ≡ Status.WriteFault → Rose (K.faults sink.old) (K.faults sink.new) }
{
    let answer = match answer_of(alloc, source) {
        Ok(answer) => answer,
        Err(fault) => return status_of_audit(fault),
    };
    let text = match answer.text(alloc) {
        Ok(text) => text,
        Err(_) => return Status::NoMemory,
    };
    match send(sink, text.as_slice()) {
        Ok(()) => Status::Ok,
        Err(fault) => Status::from(fault),
    }
}
