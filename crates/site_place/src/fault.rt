use locus_ids::NoMemory;
use thiserror::Error;

/// Why an event did not happen whole. Then the run cannot go on.
#[derive(Clone, Copy, Debug, Error)]
pub enum PlaceFault {
    #[error("no memory")]
    NoMemory,
    /// A value that is none of the disk's format was to be written, or no number is left for an epoch.
    #[error("no value of the format")]
    Unfit,
}

/// Why a site did not boot, other than by a disk call that was cut off. Then the run cannot go on.
#[derive(Clone, Copy, Debug, Error)]
pub enum StartFault {
    #[error("no memory")]
    NoMemory,
    /// The boot number on the disk is the greatest one.
    #[error("boot numbers are spent")]
    Spent,
}

impl From<NoMemory> for PlaceFault {
    ghost use Rattle.std.specs.Prelude.{◌≡◌};
    ghost use Rattle.site_place.specs.declared.fault.PlaceFault.TheVariants.{NoMemory};

    ghost from_gives = { λ _ fault. fault ≡ NoMemory };

    fn from(_: NoMemory) -> PlaceFault {
        PlaceFault::NoMemory
    }
}

impl From<NoMemory> for StartFault {
    ghost use Rattle.std.specs.Prelude.{◌≡◌};
    ghost use Rattle.site_place.specs.declared.fault.StartFault.TheVariants.{NoMemory};

    ghost from_gives = { λ _ fault. fault ≡ NoMemory };

    fn from(_: NoMemory) -> StartFault {
        StartFault::NoMemory
    }
}
