use dir_reconcile::version_vector::Vector;
use locus_ids::sizes::SITES;
use locus_ids::{Bytes, FileId, Kind, SiteId, Sites, Stamp};
use wire_messages::PageNumbers;

/// A version of which a site pulls pages from a holder, over its own copy of the file.
#[derive(Drop)]
pub struct Pull {
    pub file: FileId,
    pub kind: Kind,
    pub set: Sites,
    pub size: u32,
    pub stamp: Stamp,
    pub vector: Vector<SITES>,
    pub holder: SiteId,
    /// The version of the own copy; `None` where there is none.
    pub base: Option<Stamp>,
    /// The pages to pull, ascending; `None` while the holder hasn't said which.
    pub wanted: Option<PageNumbers>,
    /// Those that came, in this order.
    pub content: Bytes,
}
