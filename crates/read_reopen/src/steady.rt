ghost use Rattle.std.specs.Prelude.{◌≡◌, ◌≢◌};
ghost use Rattle.read_reopen.specs.declared.steady.Opened.TheVariants.{Held, Other};
ghost use Rattle.read_reopen.specs.Held.{held_by, let_go, step_of};

use locus_ids::{EpochId, FileId, Stamp};

/// A descriptor that reads one version, whatever epochs come and go.
#[derive(Clone, Copy)]
pub struct Steady {
    pub file: FileId,
    /// The version that all its reads are of.
    pub stamp: Stamp,
    /// The epoch of the instance that held it last.
    pub last: EpochId,
    /// That instance holds it still.
    pub held: bool,
    /// The serial number of that instance.
    pub serial: u32,
}

/// What a read by a steady descriptor asks first.
#[derive(Clone, Copy)]
pub enum SteadyStep {
    /// The instance that holds the descriptor reads.
    Read,
    /// The file is opened again.
    Open,
}

/// What comes of an instance that was opened for a read by a steady descriptor.
#[derive(Clone, Copy, PartialEq, Eq)]
pub enum Opened {
    /// It has the kept version, and holds the descriptor.
    Held,
    /// It has another version, so it is closed again, and the descriptor is as it was.
    Other,
}

impl Steady {
    /// Its site leaves the epoch: it stays open, and no instance holds it.
    pub fn leave(&mut self)
        ensures { self.new ≡ let_go self.old }
    {
        self.held = false;
    }

    /// What its next read asks first.
    pub fn next(&self) -> SteadyStep
        ensures { result ≡ step_of self.now }
    {
        if self.held {
            SteadyStep::Read
        } else {
            SteadyStep::Open
        }
    }

    /// An instance of its file was opened in this epoch, with this version.
    pub fn opened(&mut self, epoch: EpochId, serial: u32, stamp: Stamp) -> Opened
        ensures same { stamp ≡ self.old.stamp → (result ≡ Held) × (self.new ≡ held_by self.old epoch serial) }
        ensures other { stamp ≢ self.old.stamp → (result ≡ Other) × (self.new ≡ self.old) }
    {
        let opened = comes_of(self.stamp, stamp);
        if opened == Opened::Held {
            self.last = epoch;
            self.serial = serial;
            self.held = true;
        }
        opened
    }
}

/// What comes of an instance that was opened with this version, where the descriptor keeps that one. Who doesn't know the epoch asks this.
pub fn comes_of(kept: Stamp, granted: Stamp) -> Opened
    ensures same { granted ≡ kept → result ≡ Held }
    ensures other { granted ≢ kept → result ≡ Other }
{
    if granted == kept {
        return Opened::Held;
    }
    Opened::Other
}
