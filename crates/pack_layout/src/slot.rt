ghost use Rattle.std.specs.Prelude.{◌≡◌};
ghost use Rattle.pack_layout.specs.Layout.{newer};

use locus_ids::sizes::{CONTENT_TABLES, SITES, SLOT_PAGES};
use locus_ids::{Kind, Sites, Stamp};
use thiserror::Error;
use version_vector::Vector;

/// The newest state of an inode, or the one before it, as a slot of a pack says it.
#[derive(Clone, Copy, PartialEq, Eq)]
pub struct Slot {
    /// 0 to 2. Of two open slots of an inode that counts whose turn follows the other's.
    pub turn: u8,
    pub kind: Kind,
    pub ino: u16,
    /// The sites that store the file.
    pub set: Sites,
    /// The size of the content in bytes.
    pub size: u32,
    pub stamp: Stamp,
    pub vector: Vector<SITES>,
    /// The first data pages of the content in order; 0xFFFF past its end.
    pub pages: [u16; SLOT_PAGES],
    /// The tables that name its other data pages; 0xFFFF where it has none under them.
    pub tables: [u16; CONTENT_TABLES],
}

/// An open slot whose bytes are none of a slot of its inode.
#[derive(Clone, Copy, Debug, PartialEq, Eq, Error)]
#[error("bad slot")]
pub struct BadSlot;

/// Whether the turn of `b` follows that of `a`, or `None` exactly where they are equal.
pub fn newer(a: &Slot, b: &Slot) -> Option<bool>
    ensures { result ≡ newer a.now.turn b.now.turn }
{
    if a.turn == b.turn {
        return None;
    }
    Some((a.turn as u16 + 1) % 3 == b.turn as u16)
}
