ghost use Rattle.std.specs.Prelude.{◌≡◌};

use disk_model::DiskFault;
use thiserror::Error;

/// Why a label gives no boot number.
#[derive(Clone, Copy, Debug, PartialEq, Eq, Error)]
pub enum LabelFault {
    /// The number is the old one or the raised one.
    #[error("the disk failed")]
    Disk,
    /// No half is open, an open half is none of this site's label, or both are open with one number.
    #[error("not a label")]
    NotALabel,
    /// The number is the greatest one.
    #[error("boot numbers are spent")]
    Spent,
}

impl From<DiskFault> for LabelFault {
    ghost use Rattle.site_label.specs.declared.label_fault.LabelFault.TheVariants.{Disk};

    ghost from_gives = { λ _ fault. fault ≡ Disk };

    fn from(_: DiskFault) -> LabelFault {
        LabelFault::Disk
    }
}
