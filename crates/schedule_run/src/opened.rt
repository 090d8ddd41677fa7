ghost use Rattle.std.specs.Prelude.{◌≡◌, ℕ, ◌++◌, ◌∷◌, [], List, length, IfErr, IfOk, OnOk};
ghost use Rattle.schedule_lines.specs.Schedule.{AreInOrder};
ghost use Rattle.schedule_lines.specs.declared.line.ScheduleLine.{ScheduleLine};
ghost use Rattle.schedule_lines.specs.declared.line.ScheduleLine.TheVariants.{Event};
ghost use Rattle.the_run.specs.Runs.{run, entries_of_run};
ghost use Rattle.the_run.specs.Commands.{counts_onto, no_counts, opening_lines as opening_of};
ghost use Rattle.generated_load.specs.Pieces.{events_of};
ghost use Rattle.run_book.specs.Ledgers.{limit_in};
ghost use Rattle.run_book.specs.Writings.{written_of, counts_in};
ghost use Rattle.world.specs.Shown.{Taken, nothing_taken, all_taken};
ghost use Rattle.input_order_laws.specs.Inputs.{IsSettled};
ghost use Rattle.schedule_run.specs.Opened.{HasDone};

use generated_load::{HEADER_LINES, load_cluster, opening_lines};
use run_book::{Passed, RunCounts, Writing};
use schedule_lines::Line;
use std::alloc::Global;
use world::{World, WorldFault};

/// The run of the opening, and of the event lines after it.
#[derive(Drop)]
pub struct OpenedRun {
    /// The lines so far, those of the header too.
    lines: u32,
    world: World,
}

impl OpenedRun {
    /// The opening is run, which settles with so many deliveries at most. Of the records of the run this is written. Nothing but memory
    /// can be wanting.
    pub fn new(alloc: Global, most: u32, writing: Writing) -> Result<OpenedRun, WorldFault>
        ensures done { IfOk result (HasDone (opening_of most) (nothing_taken writing)) }
        ensures complete { IsSettled most → IfErr result (λ fault. fault ≡ WorldFault.NoMemory) }
    {
        let config = load_cluster(alloc)?;
        let world = World::new(alloc, config, writing)?;
        let mut run = OpenedRun {
            lines: HEADER_LINES,
            world,
        };
        let lines = opening_lines(alloc, most)?;
        run.happen_all(lines)?;
        Ok(run)
    }

    /// Does the next line.
    pub fn happen(&mut self, line: Line) -> Result<(), WorldFault>
        ensures done { (lines : List ScheduleLine) (taken : Taken) → HasDone lines taken self.old → OnOk result (HasDone (lines ++ Event line ∷ []) taken self.new) }
        ensures complete { (lines : List ScheduleLine) (taken : Taken) → AreInOrder (lines ++ Event line ∷ []) → HasDone lines taken self.old → IfErr result (λ fault. fault ≡ WorldFault.NoMemory) }
    {
        // A line that isn't done is dropped by a call, so that no proof here has a case for each kind of line.
        let Some(number) = self.lines.checked_add(1) else {
            drop(line);
            return Err(WorldFault::NoMemory);
        };
        self.world.step(number, line)?;
        self.lines = number;
        Ok(())
    }

    /// Does the next lines.
    pub fn happen_all(&mut self, next: Vec<Line>) -> Result<(), WorldFault>
        ensures done { (lines : List ScheduleLine) (taken : Taken) → HasDone lines taken self.old → OnOk result (HasDone (lines ++ events_of next.items) taken self.new) }
        ensures complete { (lines : List ScheduleLine) (taken : Taken) → AreInOrder (lines ++ events_of next.items) → HasDone lines taken self.old → IfErr result (λ fault. fault ≡ WorldFault.NoMemory) }
    {
        for line in next {
            self.happen(line)?;
        }
        Ok(())
    }

    /// How many lines were run, those of the header too.
    pub fn lines(&self) -> u32
        ensures { (lines : List ScheduleLine) (taken : Taken) → HasDone lines taken self.now → result ≡ length lines }
    {
        self.lines
    }

    /// What is written of the records and nobody has taken yet.
    pub fn fresh(&self) -> &[u8]
        ensures { (lines : List ScheduleLine) (taken : Taken) → HasDone lines taken self.now → written_of taken.writing (entries_of_run (run lines)) ≡ taken.bytes ++ result.now }
    {
        self.world.fresh()
    }

    /// What is written is taken.
    pub fn take_fresh(&mut self)
        ensures { (lines : List ScheduleLine) (taken : Taken) → HasDone lines taken self.old → HasDone lines (all_taken taken.writing (run lines)) self.new }
    {
        self.world.take_fresh();
    }

    /// The limit that an event of these lines passed: then the run has ended with the world before that event.
    pub fn passed(&self) -> Option<Passed>
        ensures { (lines : List ScheduleLine) (taken : Taken) → HasDone lines taken self.now → limit_in result ≡ (run lines).over }
    {
        self.world.passed()
    }

    /// The counts of all records.
    pub fn counts(&self) -> RunCounts
        ensures { (lines : List ScheduleLine) (taken : Taken) → HasDone lines taken self.now → counts_in result ≡ counts_onto no_counts (entries_of_run (run lines)) }
    {
        self.world.counts()
    }
}
