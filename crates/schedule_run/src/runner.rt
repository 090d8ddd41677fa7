ghost use Rattle.std.specs.Prelude.{◌≡◌, ℕ, ◌+◌, List, [], ◌∷◌, ◌++◌, Err, length, IfOk, OnOk};
ghost use Rattle.schedule_lines.specs.Cluster.{config_of, is_whole};
ghost use Rattle.schedule_lines.specs.Schedule.{AreInOrder, Reads};
ghost use Rattle.schedule_lines.specs.declared.line.ScheduleLine.{ScheduleLine};
ghost use Rattle.schedule_lines.specs.declared.line.ScheduleLine.TheVariants.{Event};
ghost use Rattle.the_run.specs.Worlds.{first_world};
ghost use Rattle.world.specs.States.{state_of};
ghost use Rattle.world.specs.Shown.{Shows, nothing_taken};
ghost use Rattle.the_run.specs.Runs.{run, printed};
ghost use Rattle.run_book.specs.Ledgers.{limit_in};
ghost use Rattle.world.specs.declared.fault.WorldFault.{WorldFault};
ghost use Rattle.schedule_run.specs.Standing.{StandsAs, ShowsRun, HasRun, MayStand, RunsNext};

use crate::RunFault;
use line_text::{LineRead, ScheduleReader};
use locus_ids::Config;
use run_book::{Passed, Writing};
use schedule_lines::Line;
use std::alloc::Global;
use world::World;

/// Runs a schedule line by line.
#[derive(Drop)]
pub struct ScheduleRunner {
    alloc: Global,
    reader: ScheduleReader,
    world: Option<World>,
}

/// The world before the first event line of a schedule.
fn first_world(alloc: Global, config: &Config) -> Result<World, RunFault>
    ensures made { IfOk result (λ made. Shows config.now (nothing_taken Writing.Trace) (first_world config.now) (state_of made)) }
    ensures good { result ≡ Err RunFault.Bad → ⊥ }
    ensures complete { (fault : WorldFault) → result ≡ Err (RunFault.World fault) → ⊥ }
{
    let config = config.copy()?;
    let world = World::new(alloc, config, Writing::Trace)?;
    Ok(world)
}

impl ScheduleRunner {
    /// Before the first line.
    pub fn new(alloc: Global) -> ScheduleRunner
        ensures { HasRun [] [] result }
    {
        ScheduleRunner {
            alloc,
            reader: ScheduleReader::new(alloc),
            world: None,
        }
    }

    /// Runs the next line, with its number from 1. Then what the trace tells of the lines so far is what was taken before, and the
    /// fresh text. A line that may not stand there changes nothing. The world can't go on at a line alone that may stand there, and
    /// there nothing but memory can be wanting.
    pub fn run_line(&mut self, number: u32, bytes: &[u8]) -> Result<(), RunFault>
        ensures ran { (lines : List ScheduleLine) (taken : List ℕ) → number ≡ length lines + 1 → HasRun lines taken self.old → OnOk result (RunsNext lines bytes.now taken self.new) }
        ensures bad { (lines : List ScheduleLine) (taken : List ℕ) → HasRun lines taken self.old → result ≡ Err RunFault.Bad → (l : ScheduleLine) → Reads lines bytes.now l → ⊥ }
        ensures kept { result ≡ Err RunFault.Bad → self.new ≡ self.old }
        ensures world { (lines : List ScheduleLine) (taken : List ℕ) (fault : WorldFault) → HasRun lines taken self.old → result ≡ Err (RunFault.World fault) → MayStand lines bytes.now }
        ensures complete { (lines : List ScheduleLine) (taken : List ℕ) (fault : WorldFault) → number ≡ length lines + 1 → AreInOrder lines → HasRun lines taken self.old → result ≡ Err (RunFault.World fault) → fault ≡ WorldFault.NoMemory }
    {
        match self.reader.read(self.alloc, bytes)? {
            LineRead::Passed => Ok(()),
            LineRead::Header => Ok(()),
            LineRead::Event { line } => self.happen(number, line),
        }
    }

    /// The first event line makes the world.
    fn begin(&mut self) -> Result<(), RunFault>
        ensures reader { OnOk result (self.new.reader ≡ self.old.reader) }
        ensures world { (lines : List ScheduleLine) (taken : List ℕ) → self.old.reader.header.config ≡ config_of lines → StandsAs lines taken self.old.world → OnOk result (ShowsRun lines taken self.new.world) }
        ensures good { result ≡ Err RunFault.Bad → ⊥ }
        ensures complete { (fault : WorldFault) → result ≡ Err (RunFault.World fault) → ⊥ }
    {
        if self.world.is_none() {
            self.world = Some(first_world(self.alloc, &self.reader.header.config)?);
        }
        Ok(())
    }

    /// Does an event line in the world.
    fn act(&mut self, number: u32, line: Line) -> Result<(), RunFault>
        ensures reader { OnOk result (self.new.reader ≡ self.old.reader) }
        ensures world { (lines : List ScheduleLine) (taken : List ℕ) → number ≡ length lines + 1 → ShowsRun lines taken self.old.world → OnOk result (StandsAs (lines ++ Event line ∷ []) taken self.new.world) }
        ensures good { result ≡ Err RunFault.Bad → ⊥ }
        ensures complete { (lines : List ScheduleLine) (taken : List ℕ) (fault : WorldFault) → number ≡ length lines + 1 → AreInOrder (lines ++ Event line ∷ []) → ShowsRun lines taken self.old.world → result ≡ Err (RunFault.World fault) → fault ≡ WorldFault.NoMemory }
    {
        match &mut self.world {
            Some(world) => {
                world.step(number, line)?;
                Ok(())
            }
            None => {
                drop(line);
                Err(RunFault::NoMemory)
            }
        }
    }

    /// An event line happens in the world, which the first of them makes.
    fn happen(&mut self, number: u32, line: Line) -> Result<(), RunFault>
        ensures reader { OnOk result (self.new.reader ≡ self.old.reader) }
        ensures world { (lines : List ScheduleLine) (taken : List ℕ) → number ≡ length lines + 1 → self.old.reader.header.config ≡ config_of lines → StandsAs lines taken self.old.world → OnOk result (StandsAs (lines ++ Event line ∷ []) taken self.new.world) }
        ensures good { result ≡ Err RunFault.Bad → ⊥ }
        ensures complete { (lines : List ScheduleLine) (taken : List ℕ) (fault : WorldFault) → number ≡ length lines + 1 → self.old.reader.header.config ≡ config_of lines → AreInOrder (lines ++ Event line ∷ []) → StandsAs lines taken self.old.world → result ≡ Err (RunFault.World fault) → fault ≡ WorldFault.NoMemory }
    {
        // A line that isn't done is dropped by a call, so that no proof here has a case for each kind of line.
        match self.begin() {
            Ok(()) => self.act(number, line),
            Err(fault) => {
                drop(line);
                Err(fault)
            }
        }
    }

    /// The header is whole, so that the schedule may end here.
    pub fn may_end(&self) -> bool
        ensures { (lines : List ScheduleLine) (taken : List ℕ) → HasRun lines taken self.now → result ≡ is_whole (config_of lines) }
    {
        self.reader.header.whole
    }

    /// The text of the trace that nobody has taken yet.
    pub fn fresh(&self) -> &[u8]
        ensures { (lines : List ScheduleLine) (taken : List ℕ) → HasRun lines taken self.now → printed (run lines) ≡ taken ++ result.now }
    {
        match &self.world {
            Some(world) => world.fresh(),
            None => &[],
        }
    }

    /// The text is taken.
    pub fn take_fresh(&mut self)
        ensures { (lines : List ScheduleLine) (taken : List ℕ) → HasRun lines taken self.old → HasRun lines (printed (run lines)) self.new }
    {
        match &mut self.world {
            Some(world) => world.take_fresh(),
            None => {}
        }
    }

    /// The limit that an event of these lines passed: then the run has ended with the world before that event.
    pub fn passed(&self) -> Option<Passed>
        ensures { (lines : List ScheduleLine) (taken : List ℕ) → HasRun lines taken self.now → limit_in result ≡ (run lines).over }
    {
        match &self.world {
            Some(world) => world.passed(),
            None => None,
        }
    }
}
