ghost use Rattle.std.specs.Prelude.{◌≡◌};
ghost use Rattle.line_text.specs.declared.fault.LineFault.TheVariants as fault;

use locus_ids::NoMemory;
use thiserror::Error;

/// Why a line is not read.
#[derive(Clone, Copy, Debug, Error)]
pub enum LineFault {
    /// No line that may stand here is spelled so.
    #[error("bad line")]
    Bad,
    #[error("no memory")]
    NoMemory,
}

impl From<NoMemory> for LineFault {
    ghost from_gives = { λ _ e. e ≡ fault.NoMemory };

    fn from(_: NoMemory) -> Self {
        LineFault::NoMemory
    }
}
