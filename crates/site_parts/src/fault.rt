ghost use Rattle.std.specs.Prelude.{◌≡◌};

use locus_ids::NoMemory;
use merge_protocol::EpochError;
use packet_order::OrderFault;
use site_mends::MendFault;
use site_packs::{CommitFault, WriteSize};
use storage_site::StoreFault;
use thiserror::Error;

/// Why a site could not go on. After a fault nothing is promised of the site but what its disk has.
#[derive(Clone, Copy, Debug, Error)]
pub enum NodeFault {
    #[error("no memory")]
    NoMemory,
    /// A read failed.
    #[error("the disk failed")]
    Disk,
    /// The write of a version was cut off. The packs must be mounted again: they have the old copy or the new one.
    #[error("the write was cut off")]
    Cut(WriteSize),
    /// The greatest number of an epoch is promised: none is above it.
    #[error("no number is left for an epoch")]
    NoNumber,
    /// What the site has and what its packs hold don't fit each other, or a packet isn't one of the format.
    #[error("unfit")]
    Unfit,
}

impl From<NoMemory> for NodeFault {
    ghost use Rattle.std.specs.Prelude.{◌≡◌};
    ghost use Rattle.site_parts.specs.declared.fault.NodeFault.TheVariants.{NoMemory};

    ghost from_gives = { λ _ fault. fault ≡ NoMemory };

    fn from(_: NoMemory) -> NodeFault {
        NodeFault::NoMemory
    }
}

impl From<EpochError> for NodeFault {
    ghost use Rattle.std.specs.Prelude.{◌≡◌};
    ghost use Rattle.site_parts.specs.Faults.{fault_of_epoch};

    ghost from_gives = { λ error fault. fault ≡ fault_of_epoch error };

    fn from(error: EpochError) -> NodeFault {
        match error {
            EpochError::NoMemory => NodeFault::NoMemory,
            EpochError::NoNumber => NodeFault::NoNumber,
        }
    }
}

impl From<OrderFault> for NodeFault {
    ghost use Rattle.std.specs.Prelude.{◌≡◌};
    ghost use Rattle.site_parts.specs.Faults.{fault_of_order};

    ghost from_gives = { λ refused fault. fault ≡ fault_of_order refused };

    fn from(fault: OrderFault) -> NodeFault {
        match fault {
            OrderFault::NoMemory => NodeFault::NoMemory,
            OrderFault::Unfit => NodeFault::Unfit,
        }
    }
}

impl From<StoreFault> for NodeFault {
    ghost use Rattle.std.specs.Prelude.{◌≡◌};
    ghost use Rattle.site_parts.specs.Faults.{fault_of_store};

    ghost from_gives = { λ refused fault. fault ≡ fault_of_store refused };

    fn from(fault: StoreFault) -> NodeFault {
        match fault {
            StoreFault::Disk => NodeFault::Disk,
            StoreFault::Cut(size) => NodeFault::Cut(size),
            StoreFault::Unfit => NodeFault::Unfit,
            StoreFault::NoMemory => NodeFault::NoMemory,
        }
    }
}

impl From<CommitFault> for NodeFault {
    ghost use Rattle.std.specs.Prelude.{◌≡◌};
    ghost use Rattle.site_parts.specs.Faults.{fault_of_commit};

    ghost from_gives = { λ refused fault. fault ≡ fault_of_commit refused };

    fn from(fault: CommitFault) -> NodeFault {
        match fault {
            CommitFault::Disk => NodeFault::Disk,
            CommitFault::Cut(size) => NodeFault::Cut(size),
            CommitFault::NoSpace => NodeFault::Unfit,
            CommitFault::Unfit => NodeFault::Unfit,
            CommitFault::NoMemory => NodeFault::NoMemory,
        }
    }
}

impl From<MendFault> for NodeFault {
    ghost use Rattle.std.specs.Prelude.{◌≡◌};
    ghost use Rattle.site_parts.specs.Faults.{fault_of_mend};

    ghost from_gives = { λ refused fault. fault ≡ fault_of_mend refused };

    fn from(fault: MendFault) -> NodeFault {
        match fault {
            MendFault::NoMemory => NodeFault::NoMemory,
            MendFault::Disk => NodeFault::Disk,
            MendFault::Unfit => NodeFault::Unfit,
        }
    }
}
