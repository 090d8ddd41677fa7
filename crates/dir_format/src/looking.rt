use field_codec::locus_ids::{Ino, Kind};

/// What a component of a path finds in a directory.
#[derive(Clone, Copy, PartialEq, Eq)]
pub enum LookResult {
    /// The only live entry that the component means.
    Found { ino: Ino, kind: Kind },
    /// It means no live entry.
    Absent,
    /// It means several, and these are the two least of their inodes.
    Ambiguous { a: Ino, b: Ino },
}
