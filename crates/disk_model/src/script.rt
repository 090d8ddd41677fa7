// What is to happen to a disk, and what has happened.
ghost use Rattle.std.specs.Prelude.{◌≡◌};
ghost use Rattle.disk_model.specs.Disk.{HasCause, Tells, TellsRead};

/// What a crash makes of the bytes that aren't durable.
#[derive(Clone, Copy, PartialEq, Eq)]
pub enum Leave {
    /// The bytes that were durable.
    Old,
    /// The bytes that a read gave.
    New,
    /// This byte, at each place.
    Byte(u8),
}

/// What an armed script has done.
#[derive(Clone, Copy, PartialEq, Eq)]
pub enum Fired {
    No,
    Stop,
    Fault,
}

/// What the next writes and syncs meet: so many pass, and then one stops or fails.
#[derive(Clone, Copy)]
pub(crate) enum Armed {
    Nothing,
    StopAfter(u32, Leave),
    FaultAfter(u32),
}

/// What one call meets.
#[derive(Clone, Copy)]
pub(crate) enum Turn {
    Passes,
    Stops(Leave),
    Fails,
}

#[derive(Drop)]
pub(crate) struct Script {
    pub(crate) writes: Armed,
    /// How many reads pass before one fails, where one is to.
    pub(crate) reads: Option<u32>,
    pub(crate) fired: Fired,
    /// How often a call has failed.
    pub(crate) faults: u64,
}

impl Script {
    ghost use Rattle.disk_model.specs.Script.{turn_of, read_turn_of, passing_of, outcome, fired_after, faults_after, after_write, after_read};

    /// Nothing is armed, and nothing has fired.
    pub(crate) fn new() -> Script
        ensures { result ≡ record { writes = Armed.Nothing; reads = None; fired = Fired.No; faults = 0 } }
    {
        Script {
            writes: Armed::Nothing,
            reads: None,
            fired: Fired::No,
            faults: 0,
        }
    }

    /// Takes the turn of a write or a sync.
    pub(crate) fn next_write(&mut self) -> Turn
        ensures met { result ≡ turn_of self.old }
        ensures script { self.new ≡ after_write self.old }
        ensures tells { Tells (passing_of self.old) (passing_of self.new) (outcome result) }
        ensures cause { HasCause self.old.faults self.new.faults (outcome result) }
    {
        if self.fired != Fired::No {
            return self.fail();
        }
        match self.writes {
            Armed::Nothing => Turn::Passes,
            Armed::StopAfter(0, leave) => {
                self.fired = Fired::Stop;
                self.faults = self.faults.saturating_add(1);
                Turn::Stops(leave)
            }
            Armed::StopAfter(calls, leave) => {
                self.writes = Armed::StopAfter(calls - 1, leave);
                Turn::Passes
            }
            Armed::FaultAfter(0) => self.fail(),
            Armed::FaultAfter(calls) => {
                self.writes = Armed::FaultAfter(calls - 1);
                Turn::Passes
            }
        }
    }

    /// Takes the turn of a read.
    pub(crate) fn next_read(&mut self) -> Turn
        ensures met { result ≡ read_turn_of self.old }
        ensures script { self.new ≡ after_read self.old }
        ensures tells { TellsRead (passing_of self.old) (passing_of self.new) (outcome result) }
        ensures cause { HasCause self.old.faults self.new.faults (outcome result) }
    {
        if self.fired != Fired::No {
            return self.fail();
        }
        match self.reads {
            None => Turn::Passes,
            Some(0) => self.fail(),
            Some(calls) => {
                self.reads = Some(calls - 1);
                Turn::Passes
            }
        }
    }

    // A stop stays one.
    #[cold]
    #[inline(never)]
    fn fail(&mut self) -> Turn
        ensures met { result ≡ Turn.Fails }
        ensures script { self.new ≡ record self.old { fired = fired_after Turn.Fails self.old.fired; faults = faults_after Turn.Fails self.old.faults } }
        ensures cause { HasCause self.old.faults self.new.faults (outcome Turn.Fails) }
    {
        if self.fired == Fired::No {
            self.fired = Fired::Fault;
        }
        self.faults = self.faults.saturating_add(1);
        Turn::Fails
    }
}
