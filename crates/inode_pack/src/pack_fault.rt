ghost use Rattle.std.specs.Prelude.{◌≡◌};

use disk_model::DiskFault;
use locus_ids::NoMemory;
use thiserror::Error;

/// Why a version isn't committed or adopted.
#[derive(Clone, Copy, Debug, Error)]
pub enum PackFault {
    /// The pack must be mounted again: it has the old version or the new one.
    #[error("the disk failed")]
    Disk,
    /// The version has `needed` new pages, and `free` data pages are free.
    #[error("{needed} pages are needed and {free} are free")]
    NoSpace { needed: u16, free: u16 },
    /// Before anything is written: there is no room in memory for the page numbers that stand in tables.
    #[error("no memory")]
    NoMemory,
}

impl From<NoMemory> for PackFault {
    ghost use Rattle.std.specs.Prelude.{◌≡◌};
    ghost use Rattle.inode_pack.specs.declared.pack_fault.PackFault.TheVariants.{NoMemory};

    ghost from_gives = { λ _ fault. fault ≡ NoMemory };

    fn from(_: NoMemory) -> PackFault {
        PackFault::NoMemory
    }
}

impl From<DiskFault> for PackFault {
    ghost use Rattle.inode_pack.specs.declared.pack_fault.PackFault.TheVariants.{Disk};

    ghost from_gives = { λ _ fault. fault ≡ Disk };

    fn from(_: DiskFault) -> PackFault {
        PackFault::Disk
    }
}
