use locus_ids::Bytes;
use trace_book::Outcome;

/// What an operation gives that puts a whole content in the place of the old one, or keeps it.
#[derive(Drop)]
pub struct Settled {
    pub(crate) outcome: Outcome,
    /// The content that it leaves, where it is another one.
    pub(crate) left: Option<Bytes>,
    /// It counts as a change, so that a commit is owed.
    pub(crate) counts: bool,
    /// A count that must rise has its greatest value.
    pub(crate) spent: bool,
}
