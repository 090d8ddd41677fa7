use locus_ids::NoMemory;
use thiserror::Error;

/// Why an input gets no answer.
#[derive(Clone, Copy, Debug, Error)]
pub enum AuditFault {
    /// The line with this number, from 1, is the first that may not stand where it does.
    #[error("bad line {line}")]
    BadLine { line: u32 },
    /// A line is longer than 4,194,304 bytes.
    #[error("long line")]
    LongLine,
    /// There are more than 1,000,000 lines.
    #[error("many lines")]
    ManyLines,
    #[error("read fault")]
    ReadFault,
    #[error("no memory")]
    NoMemory,
}

impl From<NoMemory> for AuditFault {
    ghost use Rattle.std.specs.Prelude.{◌≡◌};
    ghost use Rattle.audit_run.specs.declared.fault.AuditFault.TheVariants.{NoMemory as OutOfMemory};

    ghost from_gives = { λ _ fault. fault ≡ OutOfMemory };

    fn from(_: NoMemory) -> AuditFault {
        AuditFault::NoMemory
    }
}
