use locus_ids::NoMemory;
use site_packs::ReadFault;
use thiserror::Error;

/// Why it isn't known which mends start.
#[derive(Clone, Copy, Debug, PartialEq, Eq, Error)]
pub enum MendFault {
    #[error("no memory")]
    NoMemory,
    #[error("the disk failed")]
    Disk,
    /// A number in a table is no inode's.
    #[error("unfit")]
    Unfit,
}

impl From<NoMemory> for MendFault {
    ghost use Rattle.std.specs.Prelude.{◌≡◌};
    ghost use Rattle.site_mends.specs.declared.fault.MendFault.TheVariants.{NoMemory};

    ghost from_gives = { λ _ fault. fault ≡ NoMemory };

    fn from(_: NoMemory) -> MendFault {
        MendFault::NoMemory
    }
}

impl From<ReadFault> for MendFault {
    ghost use Rattle.std.specs.Prelude.{◌≡◌};
    ghost use Rattle.site_mends.specs.Mending.{fault_of_read};

    ghost from_gives = { λ error fault. fault ≡ fault_of_read error };

    fn from(fault: ReadFault) -> MendFault {
        match fault {
            ReadFault::Disk => MendFault::Disk,
            ReadFault::NoMemory => MendFault::NoMemory,
        }
    }
}
