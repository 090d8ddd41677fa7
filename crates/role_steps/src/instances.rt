use dir_reconcile::version_vector::Vector;
use file_effects::Work;
use locus_ids::sizes::SITES;
use locus_ids::{FileId, Kind, Mode, Serial, Sites, Stamps};
use wire_messages::trace_book::Outcome;
use wire_messages::{CloseAnswer, MadeVersion};

/// How far an instance is at its storage site.
#[derive(Drop)]
pub enum Stage {
    Running,
    /// The synchronization site hasn't answered the close.
    Closing {
        made: Option<MadeVersion>,
        answer: CloseAnswer,
    },
    Closed {
        answer: CloseAnswer,
    },
}

/// An open instance at its storage site.
#[derive(Drop)]
pub struct Instance {
    pub inst: Serial,
    pub file: FileId,
    pub mode: Mode,
    pub set: Sites,
    pub kind: Kind,
    /// The vector on which its next version stands, and that version's parents.
    pub vector: Vector<SITES>,
    pub parents: Stamps,
    /// The size at its opening, in bytes.
    pub size: u32,
    pub work: Work,
    /// What its last operation gave.
    pub answered: Option<Outcome>,
    pub stage: Stage,
}
