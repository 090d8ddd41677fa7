ghost use Rattle.std.specs.Prelude.{◌≡◌};
ghost use Rattle.trace_audit.specs.Kinds.{kind_of};

use trace_book::Record;

/// What a record tells of.
#[derive(Clone, Copy)]
pub(crate) enum RecordKind {
    OfSite,
    OfCall,
    OfLook,
    OfGrant,
    OfRefusal,
    OfOperation,
    OfCommit,
    OfRelease,
    /// A packet, or a line that tells of no event.
    OfNothing,
}

pub(crate) fn kind_of(r: &Record) -> RecordKind
    ensures { result ≡ kind_of r.now }
{
    match r {
        Record::Up { .. }
        | Record::Stopped { .. }
        | Record::Leave { .. }
        | Record::Join { .. }
        | Record::Start { .. }
        | Record::Adopt { .. } => RecordKind::OfSite,
        Record::Accept { .. } | Record::Answer { .. } => RecordKind::OfCall,
        Record::Look { .. } => RecordKind::OfLook,
        Record::Grant { .. } => RecordKind::OfGrant,
        Record::Refuse { .. } => RecordKind::OfRefusal,
        Record::Act { .. } => RecordKind::OfOperation,
        Record::Commit { .. } => RecordKind::OfCommit,
        Record::Release { .. } => RecordKind::OfRelease,
        Record::Packet { .. } | Record::Void | Record::Budget => RecordKind::OfNothing,
    }
}
