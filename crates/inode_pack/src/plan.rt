// What a commit is to write: the slot and the data pages of the new version.
ghost use Rattle.std.specs.Prelude.{◌≡◌, ◌≢◌, ◌≤◌, ◌<◌, ◌+◌, ◌==◌, ℕ, List, length, slice_index_or, false, Option, Some, None, OnErr, IfOk};
ghost use Rattle.std.specs.Option.{option_copied};
ghost use Rattle.locus_ids.specs.Sizes.{content_bytes_max, content_pages_max, slot_pages, content_tables_max, pack_pages};
ghost use Rattle.file_content.specs.Pages.{pages_of};
ghost use Rattle.inode_pack.specs.PagePieces.{AreWhole};
ghost use Rattle.pack_slots.specs.declared.inode_copy.InodeCopy.{InodeCopy};
ghost use Rattle.pack_slots.specs.Copies.{copy_of, named_pages, numbers_in};
ghost use Rattle.new_contents.specs.Changed.{HasChanged, needed};
ghost use Rattle.inode_pack.specs.Committing.{is_free, is_free_table, is_table_over, Makes, next_half, next_turn};

use crate::new_tables::{Written, take_tables, written_tables};
use crate::{NewVersion, Pack};
use locus_ids::sizes::{CONTENT_TABLES, SLOT_PAGES};
use locus_ids::{Ino, NoMemory};
use new_contents::{NewContent, Row, page_count};
use pack_layout::{Half, Slot};
use pack_slots::InodeCopy;
use std::alloc::Global;

/// In which of the inode's slots the new version stands.
fn next_half(old: &Option<InodeCopy>) -> Half
    ensures { result ≡ next_half old.now }
{
    match old {
        Some(copy) => copy.half.other(),
        None => Half::First,
    }
}

/// The turn of the new version.
fn next_turn(old: &Option<InodeCopy>) -> u8
    requires { (copy : InodeCopy) → old.now ≡ Some copy → copy.slot.turn ≤ 2 }
    ensures { result ≡ next_turn old.now }
{
    match old {
        Some(copy) => (copy.slot.turn + 1) % 3,
        None => 0,
    }
}

/// What a commit makes of an inode.
#[derive(Drop)]
pub struct Made {
    pub copy: InodeCopy,
    /// Which of its tables are written.
    pub tables: Written,
}

/// The slot that a commit makes, with these page numbers and tables.
fn next_slot<C: NewContent>(
    old: &Option<InodeCopy>,
    ino: Ino,
    version: &NewVersion,
    content: &C,
    pages: [u16; SLOT_PAGES],
    tables: [u16; CONTENT_TABLES],
) -> Slot
    requires size { (C.working content.now).size ≤ content_bytes_max }
    requires turn { (copy : InodeCopy) → old.now ≡ Some copy → copy.slot.turn ≤ 2 }
    ensures { result ≡ record { turn = next_turn old.now; kind = version.now.kind; ino = ino; set = version.now.set; size = (C.working content.now).size; stamp = version.now.stamp; vector = version.now.vector; pages = pages; tables = tables } }
{
    Slot {
        turn: next_turn(old),
        kind: version.kind,
        ino: ino.get(),
        set: version.set,
        size: content.size(),
        stamp: version.stamp,
        vector: version.vector,
        pages,
        tables,
    }
}

/// The copy that a commit makes over those of a pack.
pub fn next_copy<C: NewContent>(
    alloc: Global,
    pack: &Pack,
    row: Row,
    ino: Ino,
    version: &NewVersion,
    content: &C,
) -> Result<Made, NoMemory>
    requires changed { HasChanged row.first row.stop (C.working content.now) }
    requires ordered { row.first ≤ row.stop }
    requires inside { row.stop ≤ pages_of (C.working content.now).size }
    requires size { (C.working content.now).size ≤ content_bytes_max }
    requires room { needed (C.working content.now) + length (named_pages pack.now.copies) ≤ pack_pages }
    ensures makes { IfOk result (λ made. Makes (is_free pack.now.copies) (is_free_table pack.now.copies) (copy_of pack.now.copies ino) ino version.now (C.working content.now) made.copy) }
    ensures few { IfOk result (λ made. slot_pages + length made.copy.more ≤ content_pages_max) }
    ensures long { IfOk result (λ made. (length (numbers_in made.copy) ≡ content_pages_max) × (length made.copy.slot.pages ≡ slot_pages) × (length made.copy.slot.tables ≡ content_tables_max)) }
    ensures tables { IfOk result (λ made. (k : ℕ) → k < content_tables_max → slice_index_or made.tables k false ≡ is_table_over (copy_of pack.now.copies ino) (C.working content.now) k) }
    ensures whole { IfOk result (λ made. AreWhole (C.working content.now) (pages_of (C.working content.now).size)) }
    ensures no_memory { OnErr result (slot_pages < pages_of (C.working content.now).size) }
{
    let old = &pack.copies[usize::from(ino.get()) - 1];
    let pages = page_count(content.size());
    let numbers = pack.pages.take(alloc, old, content)?;
    let written = written_tables(old, row, content);
    let tables = take_tables(&pack.copies, old, written, pages);
    let half = next_half(old);
    let slot = next_slot(old, ino, version, content, numbers.first, tables);
    let more = numbers.more;
    let copy = InodeCopy { half, slot, more };
    Ok(Made {
        copy,
        tables: written,
    })
}
