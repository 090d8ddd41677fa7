ghost use Rattle.std.specs.Prelude.{◌≡◌};

use dir_format::locus_ids::NoMemory;
use thiserror::Error;

/// Why no rescue was made.
#[derive(Clone, Copy, Debug, Error)]
pub enum RescueFault {
    /// An entry that is to become live has the greatest count.
    #[error("a count is spent")]
    Spent,
    #[error("no memory")]
    NoMemory,
}

impl From<NoMemory> for RescueFault {
    ghost use Rattle.dir_reconcile.specs.declared.fault.RescueFault.TheVariants.{NoMemory};

    ghost from_gives = { λ _ fault. fault ≡ NoMemory };

    fn from(_: NoMemory) -> RescueFault {
        RescueFault::NoMemory
    }
}
