use locus_ids::NoMemory;
use thiserror::Error;

/// Why no round of polls begins.
#[derive(Clone, Copy, Debug, PartialEq, Eq, Error)]
pub enum EpochError {
    /// Memory has run out.
    #[error("no memory")]
    NoMemory,
    /// The greatest number of an epoch is promised: none is above it.
    #[error("no number is left for an epoch")]
    NoNumber,
}

impl From<NoMemory> for EpochError {
    ghost use Rattle.std.specs.Prelude.{◌≡◌};
    ghost use Rattle.merge_protocol.specs.declared.errors.EpochError.TheVariants.{NoMemory};

    ghost from_gives = { λ _ e. e ≡ NoMemory };

    fn from(_: NoMemory) -> Self {
        EpochError::NoMemory
    }
}
