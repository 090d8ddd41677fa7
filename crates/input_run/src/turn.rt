ghost use Rattle.std.specs.Prelude.{◌≡◌, ℕ, ◌≤◌, ◌+◌, List, length, Some, None, true, OnOk, OnErr, IfErr};
ghost use Rattle.locus_io.specs.Causes.{Rose};
ghost use Rattle.schedule_lines.specs.declared.line.ScheduleLine.{ScheduleLine};
ghost use Rattle.the_run.specs.Worlds.{Limit};
ghost use Rattle.input_run.specs.Codes.{ends_written, limited};
ghost use Rattle.input_run.specs.Runs.{Refuses};
ghost use Rattle.input_run.specs.Turns.{ends_turn, ends_telling, HasTold, Tells, TellsFront, Goes, IsCutShort};

use crate::ends::{status_of, stop_past};
use crate::runners::LineRunner;
use crate::sending::send;
use crate::status::Status;
use locus_io::Sink;

/// Gives the output that is fresh, and flushes.
#[tactic(none)]
pub fn tell<R: LineRunner, K: Sink>(runner: &mut R, sink: &mut K) -> Result<(), Status>
    ensures ok { (all : List (List ℕ)) (lines : List ScheduleLine) (taken : List ℕ) → R.stands all lines taken runner.old → OnOk result (Tells R.stands R.input all lines taken None runner.new (K.taken sink.old) (K.taken sink.new)) }
    ensures limit { (all : List (List ℕ)) (lines : List ScheduleLine) (taken : List ℕ) (limit : Limit) → R.stands all lines taken runner.old → result ≡ Err (Status.Limit (limited limit)) → Tells R.stands R.input all lines taken (Some limit) runner.new (K.taken sink.old) (K.taken sink.new) }
    ensures err { (all : List (List ℕ)) (lines : List ScheduleLine) (taken : List ℕ) → R.stands all lines taken runner.old → OnErr result (TellsFront R.input lines taken (K.taken sink.old) (K.taken sink.new)) }
    ensures flushed { OnOk result (K.flushed sink.new ≡ K.taken sink.new) }
    ensures failed { result ≡ Err Status.WriteFault → Rose (K.faults sink.old) (K.faults sink.new) }
    ensures only { IfErr result (λ status. ends_telling status ≡ true) }
    ensures held { IfErr result (λ status. ends_written status ≡ true → K.flushed sink.new ≡ K.taken sink.new) }
    ensures later { K.faults sink.old ≤ K.faults sink.new }
{
    send(sink, runner.output())?;
    runner.take_output();
    stop_past(runner.limit())
}

/// One turn of a run: runs a line, gives its output and flushes. All that was given before is flushed.
#[tactic(none)]
pub fn take_turn<R: LineRunner, K: Sink>(
    runner: &mut R,
    number: u32,
    bytes: &[u8],
    sink: &mut K,
) -> Result<(), Status>
    requires flushed { K.flushed sink.old ≡ K.taken sink.old }
    requires told { (all : List (List ℕ)) × (lines : List ScheduleLine) × (number ≡ length all + 1) × HasTold R.stands R.input all lines runner.old }
    ensures ok { (all : List (List ℕ)) (lines : List ScheduleLine) → number ≡ length all + 1 → HasTold R.stands R.input all lines runner.old → OnOk result (Goes R.stands R.input all lines bytes.now None runner.new (K.taken sink.old) (K.taken sink.new)) }
    ensures limit { (all : List (List ℕ)) (lines : List ScheduleLine) (limit : Limit) → number ≡ length all + 1 → HasTold R.stands R.input all lines runner.old → result ≡ Err (Status.Limit (limited limit)) → Goes R.stands R.input all lines bytes.now (Some limit) runner.new (K.taken sink.old) (K.taken sink.new) }
    ensures flushed { OnOk result (K.flushed sink.new ≡ K.taken sink.new) }
    ensures bad { (all : List (List ℕ)) (lines : List ScheduleLine) (line : ℕ) → HasTold R.stands R.input all lines runner.old → result ≡ Err (Status.BadLine line) → (line ≡ number) × Refuses R.input all bytes.now × (sink.new ≡ sink.old) }
    ensures err { (all : List (List ℕ)) (lines : List ScheduleLine) → number ≡ length all + 1 → HasTold R.stands R.input all lines runner.old → OnErr result (IsCutShort R.input all lines bytes.now (K.taken sink.old) (K.taken sink.new)) }
    ensures failed { result ≡ Err Status.WriteFault → Rose (K.faults sink.old) (K.faults sink.new) }
    ensures only { IfErr result (λ status. ends_turn status ≡ true) }
    ensures held { IfErr result (λ status. ends_written status ≡ true → K.flushed sink.new ≡ K.taken sink.new) }
    ensures later { K.faults sink.old ≤ K.faults sink.new }
{
    match runner.run_next(number, bytes) {
        Ok(()) => {}
        Err(fault) => return Err(status_of(fault, number)),
    }
    tell(runner, sink)
}
