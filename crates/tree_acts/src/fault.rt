ghost use Rattle.std.specs.Prelude.{◌≡◌};

use locus_ids::NoMemory;
use operation_effects::EffectFault;
use thiserror::Error;

/// Why nothing is told of an act.
#[derive(Clone, Copy, Debug, Error)]
pub enum ActFault {
    /// No lawful trace has it: the working content is longer than that of a file may be, or the kept versions of a directory
    /// to be mended can't be joined.
    #[error("an act that can't be carried out")]
    Unfit,
    #[error("no memory")]
    NoMemory,
}

impl From<NoMemory> for ActFault {
    ghost use Rattle.tree_acts.specs.declared.fault.ActFault.TheVariants.{NoMemory};

    ghost from_gives = { λ _ fault. fault ≡ NoMemory };

    fn from(_: NoMemory) -> ActFault {
        ActFault::NoMemory
    }
}

impl From<EffectFault> for ActFault {
    ghost use Rattle.tree_acts.specs.Unfit.{fault_of_effect};

    ghost from_gives = { λ refused fault. fault ≡ fault_of_effect refused };

    fn from(refused: EffectFault) -> ActFault {
        match refused {
            EffectFault::Unfit => ActFault::Unfit,
            EffectFault::NoMemory => ActFault::NoMemory,
        }
    }
}
