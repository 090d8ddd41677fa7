ghost use Rattle.std.specs.Prelude.{◌≡◌, ℕ, ◌⊎◌, true};
ghost use Rattle.locus_io.specs.Causes.{Rose};
ghost use Rattle.the_run.specs.Runs.{run as run_of};
ghost use Rattle.the_run.specs.Commands.{load_lines, load_text};
ghost use Rattle.generated_load.specs.Draws.{draws_of};
ghost use Rattle.command_words.specs.Words.{IsCommand};
ghost use Rattle.audited_runs.specs.of_headline_laws.TheRun.{TheRun};
ghost use Rattle.locus_main.specs.Audits.{AuditPromises};
ghost use Rattle.input_run.specs.Codes.{ends_written};
ghost use Rattle.input_run.specs.Inputs.Input.{Schedule, Calls};
ghost use Rattle.locus_main.specs.Holds.{Holds, HoldsWithin};
ghost use Rattle.locus_main.specs.Keeps.{CommandKeeps, CommandRuns};
ghost use Rattle.input_run.specs.Promises.{LinePromises, LoadPromises};

use crate::auditing::audit;
use audited_runs::runs_are_audited_well;
use command_words::{Command, WordsFault, read_words};
use input_run::{Status, make, run, tree};
use locus_ids::Names;
use locus_io::{Sink, Source};
use std::alloc::Global;

/// Does the command that the words are. `run` reads a schedule and writes its trace. `tree` reads calls on a fixed cluster and writes
/// their replies. What a line comes to is written before the next one is read. `audit` reads a trace that anybody wrote, and writes whether it
/// is consistent. `make` reads nothing, runs a generated load and writes its counts.
#[tactic(none)]
pub fn locus<S: Source, K: Sink>(
    alloc: Global,
    words: &Names,
    source: &mut S,
    sink: &mut K,
) -> Status
    // What each command promises.
    ensures run { IsCommand words.now Command.Run → LinePromises Schedule result (S.left source.old) (S.left source.new) (K.taken sink.old) (K.taken sink.new) }
    ensures tree { IsCommand words.now Command.Tree → LinePromises Calls result (S.left source.old) (S.left source.new) (K.taken sink.old) (K.taken sink.new) }
    ensures make { (number events : ℕ) → IsCommand words.now (Command.Make number events) → LoadPromises (run_of (load_lines (draws_of number events))).over (load_text (draws_of number events)) result (K.taken sink.old) (K.taken sink.new) }
    ensures audit { IsCommand words.now Command.Audit → AuditPromises result (S.left source.old) (S.left source.new) (K.taken sink.old) (K.taken sink.new) }
    ensures asks_nothing { (number events : ℕ) → IsCommand words.now (Command.Make number events) → source.new ≡ source.old }

    // What is promised of the run, and, without a word of it, of the one trace of which the output is written: a field for each promise.
    // Whoever reads one needs no other.
    ensures the_run { CommandRuns TheRun words.now (S.left source.old) }
    ensures holds { CommandKeeps Holds HoldsWithin words.now result (S.left source.old) (K.taken sink.old) (K.taken sink.new) }

    // Words that are no command touch nothing.
    ensures words { result ≡ Status.BadWords → (c : Command) → IsCommand words.now c → ⊥ }
    ensures no_command { ((c : Command) → IsCommand words.now c → ⊥) → (result ≡ Status.BadWords) ⊎ (result ≡ Status.NoMemory) }
    ensures untouched { ((c : Command) → IsCommand words.now c → ⊥) → (source.new ≡ source.old) × (sink.new ≡ sink.old) }

    // Of every command: what is written is flushed. Where it ends otherwise, but not within a write, either nothing was given or all is
    // flushed.
    ensures flushed { result ≡ Status.Ok → K.flushed sink.new ≡ K.taken sink.new }
    ensures nothing_held { ends_written result ≡ true → (sink.new ≡ sink.old) ⊎ (K.flushed sink.new ≡ K.taken sink.new) }

    // A fault of a read or a write is the source's or the sink's own.
    ensures read_fault { result ≡ Status.ReadFault → Rose (S.faults source.old) (S.faults source.new) }
    ensures write_fault { result ≡ Status.WriteFault → Rose (K.faults sink.old) (K.faults sink.new) }
{
    runs_are_audited_well();
    match read_words(alloc, words) {
        Ok(Command::Run) => run(alloc, source, sink),
        Ok(Command::Tree) => tree(alloc, source, sink),
        Ok(Command::Audit) => audit(alloc, source, sink),
        Ok(Command::Make { number, events }) => make(alloc, number, events, sink),
        Err(WordsFault::Bad) => Status::BadWords,
        Err(WordsFault::NoMemory) => Status::NoMemory,
    }
}
