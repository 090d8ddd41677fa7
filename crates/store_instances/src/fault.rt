use locus_ids::NoMemory;
use operation_effects::EffectFault;
use site_packs::{CommitFault, ReadFault, WriteSize};
use thiserror::Error;

/// Why the role could not go on. After a fault nothing is promised of the store.
#[derive(Clone, Copy, Debug, PartialEq, Eq, Error)]
pub enum StoreFault {
    /// A read failed: nothing was written.
    #[error("the disk failed")]
    Disk,
    /// The write of a version was cut off. The packs must be mounted again: they have the old copy or the new one.
    #[error("the write was cut off")]
    Cut(WriteSize),
    /// What the store has and what the pack holds don't fit each other.
    #[error("the store doesn't fit the pack")]
    Unfit,
    #[error("no memory")]
    NoMemory,
}

impl From<NoMemory> for StoreFault {
    ghost use Rattle.std.specs.Prelude.{◌≡◌};
    ghost use Rattle.store_instances.specs.declared.fault.StoreFault.TheVariants.{NoMemory};

    ghost from_gives = { λ _ fault. fault ≡ NoMemory };

    fn from(_: NoMemory) -> StoreFault {
        StoreFault::NoMemory
    }
}

impl From<EffectFault> for StoreFault {
    ghost use Rattle.std.specs.Prelude.{◌≡◌};
    ghost use Rattle.store_instances.specs.Writes.{fault_of_effect};

    ghost from_gives = { λ refused fault. fault ≡ fault_of_effect refused };

    fn from(refused: EffectFault) -> StoreFault {
        match refused {
            EffectFault::Unfit => StoreFault::Unfit,
            EffectFault::NoMemory => StoreFault::NoMemory,
        }
    }
}

impl From<CommitFault> for StoreFault {
    ghost use Rattle.std.specs.Prelude.{◌≡◌};
    ghost use Rattle.store_instances.specs.Writes.{fault_of_commit};

    ghost from_gives = { λ refused fault. fault ≡ fault_of_commit refused };

    fn from(refused: CommitFault) -> StoreFault {
        match refused {
            CommitFault::Disk => StoreFault::Disk,
            CommitFault::Cut(size) => StoreFault::Cut(size),
            CommitFault::NoSpace => StoreFault::Unfit,
            CommitFault::Unfit => StoreFault::Unfit,
            CommitFault::NoMemory => StoreFault::NoMemory,
        }
    }
}

impl From<ReadFault> for StoreFault {
    ghost use Rattle.std.specs.Prelude.{◌≡◌};
    ghost use Rattle.store_instances.specs.Writes.{fault_of_read};

    ghost from_gives = { λ refused fault. fault ≡ fault_of_read refused };

    fn from(refused: ReadFault) -> StoreFault {
        match refused {
            ReadFault::Disk => StoreFault::Disk,
            ReadFault::NoMemory => StoreFault::NoMemory,
        }
    }
}
