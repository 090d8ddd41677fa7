ghost use Rattle.std.specs.Prelude.{◌≡◌};

use locus_ids::NoMemory;
use thiserror::Error;

/// Why an operation was not carried out.
#[derive(Clone, Copy, Debug, Error)]
pub enum EffectFault {
    /// The contents that a mend is to join are no directories of one group: an inode has two kinds, or a content is longer
    /// than 4,294,967,295 bytes.
    #[error("contents that can't be joined")]
    Unfit,
    #[error("no memory")]
    NoMemory,
}

impl From<NoMemory> for EffectFault {
    ghost use Rattle.operation_effects.specs.declared.fault.EffectFault.TheVariants.{NoMemory};

    ghost from_gives = { λ _ fault. fault ≡ NoMemory };

    fn from(_: NoMemory) -> EffectFault {
        EffectFault::NoMemory
    }
}
