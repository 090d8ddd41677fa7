use locus_ids::sizes::SITES;
use locus_ids::{Kind, Sites, Stamp};
use version_vector::Vector;

/// What a new version of an inode is, but for its content.
#[derive(Clone, Copy)]
pub struct NewVersion {
    pub kind: Kind,
    /// The sites that store the file.
    pub set: Sites,
    pub stamp: Stamp,
    pub vector: Vector<SITES>,
}
