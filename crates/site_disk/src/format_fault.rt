ghost use Rattle.std.specs.Prelude.{◌≡◌};

use disk_model::DiskFault;
use thiserror::Error;

/// Why a disk isn't formatted.
#[derive(Clone, Copy, Debug, Error)]
pub enum FormatFault {
    #[error("the disk failed")]
    Disk,
    #[error("no memory")]
    NoMemory,
}

impl From<DiskFault> for FormatFault {
    ghost use Rattle.site_disk.specs.declared.format_fault.FormatFault.TheVariants.{Disk};

    ghost from_gives = { λ _ fault. fault ≡ Disk };

    fn from(_: DiskFault) -> FormatFault {
        FormatFault::Disk
    }
}
