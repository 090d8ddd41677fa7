use dir_reconcile::version_vector::Vector;
use locus_ids::sizes::SITES;
use locus_ids::{Bytes, FileId, Kind, Sites, Stamp};
use wire_messages::PageNumbers;

/// What a pack holds of a file.
#[derive(Drop)]
pub struct FileCopy {
    pub file: FileId,
    pub kind: Kind,
    /// The sites that store the file.
    pub set: Sites,
    pub stamp: Stamp,
    pub vector: Vector<SITES>,
    pub content: Bytes,
}

/// A commit or an adoption of a file at this site.
#[derive(Drop)]
pub struct Step {
    /// The version before it, if there was one.
    pub before: Option<Stamp>,
    pub after: Stamp,
    /// The numbers of the pages that were written, ascending.
    pub pages: PageNumbers,
}
