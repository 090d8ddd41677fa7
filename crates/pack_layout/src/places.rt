ghost use Rattle.std.specs.Prelude.{◌≡◌, ◌+◌, ◌≤◌, ◌<◌, ◌^◌};
ghost use Rattle.locus_ids.specs.Sizes.{inodes_max, pack_pages, pack_tables};
ghost use Rattle.pack_layout.specs.Layout.{area_at, area_length, page_at, slot_at, table_at};

use crate::Half;
use crate::layout::{
    AREA_LENGTH, LABEL_LENGTH, PAGES_AT, SLOT_LENGTH, SLOTS_AT, TABLE_LENGTH, TABLES_AT,
};
use locus_ids::Ino;
use locus_ids::sizes::PAGE_BYTES;

/// The length of a disk with so many packs, in bytes.
pub fn disk_len(packs: u8) -> u32
    requires { packs ≤ 4 }
    ensures { result ≡ area_at packs }
{
    LABEL_LENGTH + AREA_LENGTH * packs as u32
}

/// The place of the pack area of a number, from 0.
pub fn area_at(nth: u8) -> u32
    requires { nth ≤ 3 }
    ensures { result ≡ area_at nth }
{
    LABEL_LENGTH + AREA_LENGTH * nth as u32
}

/// The inode whose slots stand behind those of so many others.
pub fn nth_inode(n: u16) -> Ino
    requires { n < inodes_max }
    ensures { result ≡ n + 1 }
{
    match Ino::new(n + 1) {
        Some(ino) => ino,
        None => Ino::root(),
    }
}

/// The place of one of the two slots of an inode, in the area from `base`.
pub fn slot_at(base: u32, ino: Ino, half: Half) -> u32
    requires { base + area_length < 2 ^ 32 }
    ensures { result ≡ slot_at base ino half }
{
    let first = base + SLOTS_AT + 2 * SLOT_LENGTH as u32 * (u32::from(ino.get()) - 1);
    match half {
        Half::First => first,
        Half::Second => first + SLOT_LENGTH as u32,
    }
}

/// The place of a table of page numbers, in the area from `base`.
pub fn table_at(base: u32, table: u16) -> u32
    requires area { base + area_length < 2 ^ 32 }
    requires table { table < pack_tables }
    ensures { result ≡ table_at base table }
{
    base + TABLES_AT + TABLE_LENGTH as u32 * table as u32
}

/// The place of a data page, in the area from `base`.
pub fn page_at(base: u32, page: u16) -> u32
    requires area { base + area_length < 2 ^ 32 }
    requires page { page < pack_pages }
    ensures { result ≡ page_at base page }
{
    base + PAGES_AT + PAGE_BYTES as u32 * page as u32
}
