use dir_format::locus_ids::sizes::SITES;
use dir_format::locus_ids::{Ino, ItemList};
use dir_format::version_vector::Vector;

/// The vector of a version of a file that is kept.
#[derive(Clone, Copy)]
pub struct KeptVector {
    pub ino: Ino,
    pub vector: Vector<SITES>,
}

/// The vectors of the versions that are kept, of any files of a group.
pub type KeptVectors = ItemList<KeptVector>;
