ghost use Rattle.std.specs.Prelude.{◌≡◌};
ghost use Rattle.site_disk.specs.Boots.{fault_of_label, fault_of_mount};

use site_label::LabelFault;
use site_packs::MountFault;
use thiserror::Error;

/// Why a disk isn't booted. The label is asked first, then each pack by group.
#[derive(Clone, Copy, Debug, Error)]
pub enum BootFault {
    /// The boot number is the one from before or the raised one, and the copies are those from before.
    #[error("the disk failed")]
    Disk,
    /// No half of the label is open, an open half is none of this site's label, or both are open with one number.
    #[error("not a label")]
    NotALabel,
    /// The boot number is the greatest one.
    #[error("boot numbers are spent")]
    Spent,
    /// The area of a pack doesn't begin as one of this group at this site.
    #[error("not a pack")]
    NotAPack,
    /// An open slot of an inode is none of it, or both are open with equal turns.
    #[error("bad slot of inode {ino}")]
    BadSlot { ino: u16 },
    /// The counting slots of two inodes of a pack name the table.
    #[error("shared table {table}")]
    SharedTable { table: u16 },
    /// The counting slots of two inodes name the data page.
    #[error("shared page {page}")]
    SharedPage { page: u16 },
    #[error("no memory")]
    NoMemory,
}

impl From<LabelFault> for BootFault {
    ghost from_gives = { λ from fault. fault ≡ fault_of_label from };

    fn from(fault: LabelFault) -> BootFault {
        match fault {
            LabelFault::Disk => BootFault::Disk,
            LabelFault::NotALabel => BootFault::NotALabel,
            LabelFault::Spent => BootFault::Spent,
        }
    }
}

impl From<MountFault> for BootFault {
    ghost from_gives = { λ from fault. fault ≡ fault_of_mount from };

    fn from(fault: MountFault) -> BootFault {
        match fault {
            MountFault::Disk => BootFault::Disk,
            MountFault::NotAPack => BootFault::NotAPack,
            MountFault::BadSlot { ino } => BootFault::BadSlot { ino },
            MountFault::SharedTable { table } => BootFault::SharedTable { table },
            MountFault::SharedPage { page } => BootFault::SharedPage { page },
            MountFault::NoMemory => BootFault::NoMemory,
        }
    }
}
