use disk_model::DiskFault;
use locus_ids::NoMemory;
use std::alloc::AllocError;
use thiserror::Error;

/// Why a pack isn't mounted. Of several reasons the first of this order is given, with the least number.
#[derive(Clone, Copy, Debug, PartialEq, Eq, Error)]
pub enum MountFault {
    #[error("the disk failed")]
    Disk,
    /// The area doesn't begin as one of a pack of this group at this site.
    #[error("not a pack")]
    NotAPack,
    /// An open slot of the inode is none of it, or both are open with equal turns, or the tables of the counting one don't name
    /// different pages with it.
    #[error("bad slot of inode {ino}")]
    BadSlot { ino: u16 },
    /// The counting slots of two inodes name the table.
    #[error("shared table {table}")]
    SharedTable { table: u16 },
    /// The counting slots of two inodes name the data page.
    #[error("shared page {page}")]
    SharedPage { page: u16 },
    #[error("no memory")]
    NoMemory,
}

impl From<DiskFault> for MountFault {
    ghost use Rattle.std.specs.Prelude.{◌≡◌};
    ghost use Rattle.pack_slots.specs.declared.mount_fault.MountFault.TheVariants.{Disk};

    ghost from_gives = { λ _ fault. fault ≡ Disk };

    fn from(_: DiskFault) -> MountFault {
        MountFault::Disk
    }
}

impl From<NoMemory> for MountFault {
    ghost use Rattle.std.specs.Prelude.{◌≡◌};
    ghost use Rattle.pack_slots.specs.declared.mount_fault.MountFault.TheVariants.{NoMemory};

    ghost from_gives = { λ _ fault. fault ≡ NoMemory };

    fn from(_: NoMemory) -> MountFault {
        MountFault::NoMemory
    }
}

impl From<AllocError> for MountFault {
    ghost use Rattle.std.specs.Prelude.{◌≡◌};
    ghost use Rattle.pack_slots.specs.declared.mount_fault.MountFault.TheVariants.{NoMemory};

    ghost from_gives = { λ _ fault. fault ≡ NoMemory };

    fn from(_: AllocError) -> MountFault {
        MountFault::NoMemory
    }
}
