use disk_model::DiskFault;
use locus_ids::NoMemory;
use thiserror::Error;

/// What the write of a version was to write: so many pages and tables, and it was to replace another version or not.
#[derive(Clone, Copy, Debug, PartialEq, Eq)]
pub struct WriteSize {
    pub blocks: usize,
    pub replaces: bool,
}

/// Why a version isn't committed or adopted.
#[derive(Clone, Copy, Debug, Error)]
pub enum CommitFault {
    /// A read failed before the first write.
    #[error("the disk failed")]
    Disk,
    /// The write of the version was cut off. The packs must be mounted again: they have the old copy or the new one.
    #[error("the write was cut off")]
    Cut(WriteSize),
    /// The version has more new pages than the pack has free ones.
    #[error("no space")]
    NoSpace,
    /// The site has no pack of the group, the inode is none, no slot may say what the version is, or a page that isn't among the
    /// changed ones is not that of the copy so far.
    #[error("unfit version")]
    Unfit,
    /// There is no room for the numbers of pages that a slot has no room for. Nothing was written.
    #[error("no memory")]
    NoMemory,
}

impl From<DiskFault> for CommitFault {
    ghost use Rattle.std.specs.Prelude.{◌≡◌};
    ghost use Rattle.site_packs.specs.declared.faults.CommitFault.TheVariants.{Disk};

    ghost from_gives = { λ _ fault. fault ≡ Disk };

    fn from(_: DiskFault) -> CommitFault {
        CommitFault::Disk
    }
}

/// Why a content isn't read.
#[derive(Clone, Copy, Debug, Error)]
pub enum ReadFault {
    #[error("the disk failed")]
    Disk,
    #[error("no memory")]
    NoMemory,
}

impl From<DiskFault> for ReadFault {
    ghost use Rattle.std.specs.Prelude.{◌≡◌};
    ghost use Rattle.site_packs.specs.declared.faults.ReadFault.TheVariants.{Disk};

    ghost from_gives = { λ _ fault. fault ≡ Disk };

    fn from(_: DiskFault) -> ReadFault {
        ReadFault::Disk
    }
}

impl From<NoMemory> for ReadFault {
    ghost use Rattle.std.specs.Prelude.{◌≡◌};
    ghost use Rattle.site_packs.specs.declared.faults.ReadFault.TheVariants.{NoMemory};

    ghost from_gives = { λ _ fault. fault ≡ NoMemory };

    fn from(_: NoMemory) -> ReadFault {
        ReadFault::NoMemory
    }
}
