ghost use Rattle.std.specs.Prelude.{◌≡◌, ℕ, ◌≤◌, ◌++◌, List, length, Err, Some, None, IfOk, OnOk};
ghost use Rattle.schedule_lines.specs.Schedule.{AreInOrder};
ghost use Rattle.schedule_lines.specs.declared.line.ScheduleLine.{ScheduleLine};
ghost use Rattle.the_run.specs.Runs.{run as run_of, entries_of_run};
ghost use Rattle.the_run.specs.Commands.{counts_onto, counts_text as text_of, load_lines, load_text, no_counts};
ghost use Rattle.generated_load.specs.Draws.{draws_of};
ghost use Rattle.generated_load.specs.Pieces.{lines_left};
ghost use Rattle.run_book.specs.Ledgers.{limit_named};
ghost use Rattle.run_book.specs.declared.fault.Passed.{Passed as Limited};
ghost use Rattle.world.specs.Shown.{Taken, nothing_taken};
ghost use Rattle.world.specs.declared.fault.WorldFault.{WorldFault};
ghost use Rattle.schedule_run.specs.Opened.{HasDone};

use crate::counts_text::counts_text;
use crate::{LoadFault, OpenedRun};
use generated_load::{Load, closing_lines};
use locus_ids::Bytes;
use run_book::Writing;
use std::alloc::Global;

/// The deliveries of the opening's settle.
const MOST: u32 = 20_000;

/// Runs the events of a load.
fn run_events(alloc: Global, load: Load, run: &mut OpenedRun) -> Result<(), LoadFault>
    ensures done { (lines : List ScheduleLine) (taken : Taken) → HasDone lines taken run.old → OnOk result (HasDone (lines ++ lines_left load) taken run.new) }
    ensures goes_on { (limit : Limited) → result ≡ Err (LoadFault.Limit limit) → ⊥ }
    ensures complete { (lines : List ScheduleLine) (taken : Taken) (fault : WorldFault) → AreInOrder (lines ++ lines_left load) → HasDone lines taken run.old → result ≡ Err (LoadFault.World fault) → fault ≡ WorldFault.NoMemory }
{
    let mut load = load;
    while let Some(lines) = load.next(alloc)? {
        run.happen_all(lines)?;
    }
    Ok(())
}

/// Runs the whole load. A limit that is passed ends no run.
fn run_all(alloc: Global, number: u64, events: u32) -> Result<OpenedRun, LoadFault>
    requires { events ≤ 2000 }
    ensures done { IfOk result (HasDone (load_lines (draws_of number events)) (nothing_taken Writing.Nothing)) }
    ensures goes_on { (limit : Limited) → result ≡ Err (LoadFault.Limit limit) → ⊥ }
    ensures complete { (fault : WorldFault) → result ≡ Err (LoadFault.World fault) → fault ≡ WorldFault.NoMemory }
{
    let mut run = OpenedRun::new(alloc, MOST, Writing::Nothing)?;
    run_events(alloc, Load::new(number, events), &mut run)?;
    let lines = closing_lines(alloc)?;
    run.happen_all(lines)?;
    Ok(run)
}

/// The counts of a run, where it passed no limit.
fn counts_of(alloc: Global, run: &OpenedRun) -> Result<Bytes, LoadFault>
    ensures within { (lines : List ScheduleLine) (taken : Taken) → HasDone lines taken run.now → OnOk result ((run_of lines).over ≡ None) }
    ensures text { (lines : List ScheduleLine) (taken : Taken) → HasDone lines taken run.now → IfOk result (λ text. text ≡ text_of (length lines) (counts_onto no_counts (entries_of_run (run_of lines)))) }
    ensures limit { (lines : List ScheduleLine) (taken : Taken) (limit : Limited) → HasDone lines taken run.now → result ≡ Err (LoadFault.Limit limit) → (run_of lines).over ≡ Some (limit_named limit) }
    ensures complete { (fault : WorldFault) → result ≡ Err (LoadFault.World fault) → ⊥ }
{
    if let Some(limit) = run.passed() {
        return Err(LoadFault::Limit(limit));
    }
    let text = counts_text(alloc, run.lines(), &run.counts())?;
    Ok(text)
}

/// Runs the load of a number with so many events, and tells its counts. The answer is `Limit` only where the run passes that limit, and of
/// the faults of a world nothing but memory can be wanting.
pub fn run_load(alloc: Global, number: u64, events: u32) -> Result<Bytes, LoadFault>
    requires { events ≤ 2000 }
    ensures within { OnOk result ((run_of (load_lines (draws_of number events))).over ≡ None) }
    ensures text { IfOk result (λ text. text ≡ load_text (draws_of number events)) }
    ensures limit { (limit : Limited) → result ≡ Err (LoadFault.Limit limit) → (run_of (load_lines (draws_of number events))).over ≡ Some (limit_named limit) }
    ensures complete { (fault : WorldFault) → result ≡ Err (LoadFault.World fault) → fault ≡ WorldFault.NoMemory }
{
    let run = run_all(alloc, number, events)?;
    counts_of(alloc, &run)
}
