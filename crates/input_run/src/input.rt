ghost use Rattle.std.specs.Prelude.{◌≡◌, ◌≢◌, [], true, false};
ghost use Rattle.locus_io.specs.Causes.{Rose};
ghost use Rattle.input_run.specs.Codes.{ends_written};
ghost use Rattle.input_run.specs.Inputs.{opening_of};
ghost use Rattle.input_run.specs.Promises.{LinePromises};

use crate::lines::next_line;
use crate::runners::LineRunner;
use crate::status::Status;
use crate::turn::{take_turn, tell};
use line_reader::LineReader;
use locus_io::{Sink, Source};

/// Runs each line of the input. The output of the opening is told first; then what a line comes to is given and flushed before the
/// next line is read.
#[tactic(none)]
pub fn run_lines<R: LineRunner, S: Source, K: Sink>(
    runner: &mut R,
    reader: &mut LineReader,
    source: &mut S,
    sink: &mut K,
) -> Status
    requires opened { R.stands [] (opening_of R.input) [] runner.old }
    requires unread { reader.old ≡ record { ahead = []; line = []; number = 0; limit = 16384; ended = false } }
    ensures promises { LinePromises R.input result (S.left source.old) (S.left source.new) (K.taken sink.old) (K.taken sink.new) }
    ensures words { result ≢ Status.BadWords }
    ensures held { ends_written result ≡ true → K.flushed sink.new ≡ K.taken sink.new }
    ensures read_fault { result ≡ Status.ReadFault → Rose (S.faults source.old) (S.faults source.new) }
    ensures write_fault { result ≡ Status.WriteFault → Rose (K.faults sink.old) (K.faults sink.new) }
{
    match tell(runner, sink) {
        Ok(()) => {}
        Err(status) => return status,
    }
    loop {
        match next_line(reader, source) {
            Ok(true) => {}
            Ok(false) => {
                if runner.may_end_here() {
                    return Status::Ok;
                }
                return Status::BadLine {
                    line: reader.number() + 1,
                };
            }
            Err(status) => return status,
        }
        match take_turn(runner, reader.number(), reader.bytes(), sink) {
            Ok(()) => {}
            Err(status) => return status,
        }
    }
}
