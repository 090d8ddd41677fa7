use locus_ids::NoMemory;
use run_book::BookFault;
use site_place::{PlaceFault, StartFault};
use thiserror::Error;

/// Why a line was not done. Then the run cannot go on.
#[derive(Clone, Copy, Debug, Error)]
pub enum WorldFault {
    #[error("no memory")]
    NoMemory,
    /// A packet that an event sends is not one of the format.
    #[error("no packet of the format")]
    UnfitPacket,
    /// A value that is none of the disk's format was to be written, or no number is left for an epoch.
    #[error("no value of the format")]
    UnfitValue,
    /// The boot number of a site is the greatest one.
    #[error("boot numbers are spent")]
    Spent,
}

impl From<NoMemory> for WorldFault {
    ghost use Rattle.std.specs.Prelude.{◌≡◌};
    ghost use Rattle.world.specs.declared.fault.WorldFault.TheVariants.{NoMemory};

    ghost from_gives = { λ _ fault. fault ≡ NoMemory };

    fn from(_: NoMemory) -> WorldFault {
        WorldFault::NoMemory
    }
}

impl From<BookFault> for WorldFault {
    ghost use Rattle.world.specs.Faults.{fault_of_book};
    ghost use Rattle.std.specs.Prelude.{◌≡◌};

    ghost from_gives = { λ refused fault. fault ≡ fault_of_book refused };

    fn from(fault: BookFault) -> WorldFault {
        match fault {
            BookFault::NoMemory => WorldFault::NoMemory,
            BookFault::Unfit => WorldFault::UnfitPacket,
        }
    }
}

impl From<PlaceFault> for WorldFault {
    ghost use Rattle.world.specs.Faults.{fault_of_place};
    ghost use Rattle.std.specs.Prelude.{◌≡◌};

    ghost from_gives = { λ refused fault. fault ≡ fault_of_place refused };

    fn from(fault: PlaceFault) -> WorldFault {
        match fault {
            PlaceFault::NoMemory => WorldFault::NoMemory,
            PlaceFault::Unfit => WorldFault::UnfitValue,
        }
    }
}

impl From<StartFault> for WorldFault {
    ghost use Rattle.world.specs.Faults.{fault_of_start};
    ghost use Rattle.std.specs.Prelude.{◌≡◌};

    ghost from_gives = { λ refused fault. fault ≡ fault_of_start refused };

    fn from(fault: StartFault) -> WorldFault {
        match fault {
            StartFault::NoMemory => WorldFault::NoMemory,
            StartFault::Spent => WorldFault::Spent,
        }
    }
}
