ghost use Rattle.std.specs.Prelude.{◌≡◌};
ghost use Rattle.record_reading.specs.declared.fault.RecordFault.TheVariants as fault;

use locus_ids::NoMemory;
use thiserror::Error;

/// Why a line is not read.
#[derive(Clone, Copy, Debug, PartialEq, Eq, Error)]
pub enum RecordFault {
    /// No well-formed record has this text.
    #[error("bad record")]
    Bad,
    #[error("no memory")]
    NoMemory,
}

impl From<NoMemory> for RecordFault {
    ghost from_gives = { λ _ e. e ≡ fault.NoMemory };

    fn from(_: NoMemory) -> Self {
        RecordFault::NoMemory
    }
}
