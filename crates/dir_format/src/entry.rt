ghost use Rattle.std.specs.Prelude.{◌≡◌};
ghost use Rattle.dir_format.specs.Entries.{entry_cmp, is_live};

use field_codec::locus_ids::sizes::SITES;
use field_codec::locus_ids::{Bytes, Ino, Kind};
use std::cmp::Ordering;
use version_vector::Vector;

/// A name of a file in a directory. It is live where its count is odd, and where it is even it stands as removed, with the
/// vector of the file's version that the removal saw. The name and the inode together tell it apart from all others.
#[derive(Clone, Drop)]
pub struct Entry {
    pub name: Bytes,
    pub ino: Ino,
    pub kind: Kind,
    /// How often the pair of name and inode was made or removed.
    pub count: u32,
    /// Zero where the entry is live.
    pub seen: Vector<SITES>,
}

/// How an entry stands to another in the order of a directory: by the bytes of the name, then by inode.
pub fn entry_cmp(a: &Entry, b: &Entry) -> Ordering
    ensures { result ≡ entry_cmp a.now b.now }
{
    match a.name.as_slice().cmp(b.name.as_slice()) {
        Ordering::Equal => a.ino.get().cmp(&b.ino.get()),
        other => other,
    }
}

/// Whether the entry is live.
pub fn is_live(d: &Entry) -> bool
    ensures { result ≡ is_live d.now }
{
    d.count % 2 == 1
}
