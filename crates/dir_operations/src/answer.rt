ghost use Rattle.std.specs.Prelude.{◌≡◌, false};

use locus_ids::Refusal;
use trace_book::Outcome;

/// What an operation on a directory gave, besides the entries after it.
#[derive(Drop)]
pub struct DirAnswer {
    pub outcome: Outcome,
    /// It counts as a change of the content.
    pub counts: bool,
    /// A count that had to rise has its greatest value, and stands still.
    pub spent: bool,
}

pub(crate) fn refused(why: Refusal) -> DirAnswer
    ensures { result ≡ record { outcome = Outcome.No why; counts = false; spent = false } }
{
    answered(Outcome::No { why })
}

pub(crate) fn answered(outcome: Outcome) -> DirAnswer
    ensures { result ≡ record { outcome = outcome; counts = false; spent = false } }
{
    DirAnswer {
        outcome,
        counts: false,
        spent: false,
    }
}
