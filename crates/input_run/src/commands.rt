ghost use Rattle.std.specs.Prelude.{◌≡◌, ◌≢◌, ℕ, ◌≤◌, ◌⊎◌, true};
ghost use Rattle.locus_io.specs.Causes.{Rose};
ghost use Rattle.the_run.specs.Runs.{run as run_of};
ghost use Rattle.the_run.specs.Commands.{load_lines, load_text};
ghost use Rattle.generated_load.specs.Draws.{draws_of};
ghost use Rattle.input_run.specs.Codes.{ends_written};
ghost use Rattle.input_run.specs.Inputs.Input.{Schedule, Calls};
ghost use Rattle.input_run.specs.Promises.{LinePromises, LoadPromises};

use crate::ends::{status_of, status_of_load};
use crate::input::run_lines;
use crate::sending::send;
use crate::status::Status;
use line_reader::LineReader;
use locus_ids::sizes::LINE_BYTES;
use locus_io::{Sink, Source};
use schedule_run::{ScheduleRunner, TreeRunner, run_load};
use std::alloc::Global;

/// Runs a schedule and writes its trace.
#[tactic(none)]
pub fn run<S: Source, K: Sink>(alloc: Global, source: &mut S, sink: &mut K) -> Status
    ensures promises { LinePromises Schedule result (S.left source.old) (S.left source.new) (K.taken sink.old) (K.taken sink.new) }
    ensures words { result ≢ Status.BadWords }
    ensures flushed { result ≡ Status.Ok → K.flushed sink.new ≡ K.taken sink.new }
    ensures nothing_held { ends_written result ≡ true → (sink.new ≡ sink.old) ⊎ (K.flushed sink.new ≡ K.taken sink.new) }
    ensures read_fault { result ≡ Status.ReadFault → Rose (S.faults source.old) (S.faults source.new) }
    ensures write_fault { result ≡ Status.WriteFault → Rose (K.faults sink.old) (K.faults sink.new) }
{
    match LineReader::new(alloc, LINE_BYTES) {
        Ok(mut reader) => {
            let mut runner = ScheduleRunner::new(alloc);
            run_lines(&mut runner, &mut reader, source, sink)
        }
        Err(_) => Status::NoMemory,
    }
}

/// Runs calls on the fixed cluster and writes their replies.
#[tactic(none)]
pub fn tree<S: Source, K: Sink>(alloc: Global, source: &mut S, sink: &mut K) -> Status
    ensures promises { LinePromises Calls result (S.left source.old) (S.left source.new) (K.taken sink.old) (K.taken sink.new) }
    ensures words { result ≢ Status.BadWords }
    ensures flushed { result ≡ Status.Ok → K.flushed sink.new ≡ K.taken sink.new }
    ensures nothing_held { ends_written result ≡ true → (sink.new ≡ sink.old) ⊎ (K.flushed sink.new ≡ K.taken sink.new) }
    ensures read_fault { result ≡ Status.ReadFault → Rose (S.faults source.old) (S.faults source.new) }
    ensures write_fault { result ≡ Status.WriteFault → Rose (K.faults sink.old) (K.faults sink.new) }
{
    let mut runner = match TreeRunner::new(alloc) {
        Ok(runner) => runner,
        Err(fault) => return status_of(fault, 0),
    };
    match LineReader::new(alloc, LINE_BYTES) {
        Ok(mut reader) => run_lines(&mut runner, &mut reader, source, sink),
        Err(_) => Status::NoMemory,
    }
}

/// Runs a generated load and writes its counts.
#[tactic(none)]
pub fn make<K: Sink>(alloc: Global, number: u64, events: u32, sink: &mut K) -> Status
    requires { events ≤ 2000 }
    ensures promises { LoadPromises (run_of (load_lines (draws_of number events))).over (load_text (draws_of number events)) result (K.taken sink.old) (K.taken sink.new) }
    ensures words { result ≢ Status.BadWords }
    ensures reads { result ≢ Status.ReadFault }
    ensures flushed { result ≡ Status.Ok → K.flushed sink.new ≡ K.taken sink.new }
    ensures nothing_held { ends_written result ≡ true → (sink.new ≡ sink.old) ⊎ (K.flushed sink.new ≡ K.taken sink.new) }
    ensures write_fault { result ≡ Status.WriteFault → Rose (K.faults sink.old) (K.faults sink.new) }
{
    let text = match run_load(alloc, number, events) {
        Ok(text) => text,
        Err(fault) => return status_of_load(fault),
    };
    match send(sink, text.as_slice()) {
        Ok(()) => Status::Ok,
        Err(fault) => Status::from(fault),
    }
}
