// The bytes that a commit writes before it opens the gate. None of them is copied: each goes to the disk from where it stands.
ghost use Rattle.std.specs.Prelude.{◌≡◌, ◌≤◌, ◌<◌, ◌+◌, ◌^◌, ℕ, List, [], ◌∷◌, ◌++◌, length, slice_index, slice_index_or, true, false, OnOk};
ghost use Rattle.locus_ids.specs.Sizes.{content_bytes_max, content_pages_max, slot_pages, content_tables_max, pack_pages, pack_tables};
ghost use Rattle.disk_model.specs.Disk.{Goes, HasCause};
ghost use Rattle.file_content.specs.Pages.{pages_of};
ghost use Rattle.pack_layout.specs.Layout.{area_length, page_at};
ghost use Rattle.new_contents.specs.of_shadow_pages.Working.{page_at as shadow_page};
ghost use Rattle.disk_model.specs.Moments.{TellsMany};
ghost use Rattle.gate_switch.specs.Switch.{AreWithin, TornIn, written};
ghost use Rattle.new_contents.specs.Changed.{piece_at, HasChanged};
ghost use Rattle.inode_pack.specs.PagePieces.{page_pieces, marked_tables, table_piece, table_pieces, body_piece, pieces_of};
ghost use Rattle.pack_slots.specs.Copies.{numbers_in};

use crate::pages::page_number;
use crate::plan::Made;
use disk_model::{Disk, DiskFault};
use gate_switch::PieceSource;
use locus_ids::Ino;
use locus_ids::sizes::{CONTENT_TABLES, SLOT_PAGES, TABLE_PAGES};
use new_contents::{NewContent, Row};
use pack_layout::layout::{BODY_LENGTH, FIELDS_LENGTH, TABLE_LENGTH};
use pack_layout::{page_at, slot_at, table_at, write_fields, write_table};
use pack_slots::InodeCopy;

/// All that a commit writes before the gate opens: the changed pages, the new tables, and last the slot.
#[derive(Drop)]
pub(crate) struct CommitPieces<'a, C: NewContent> {
    pub base: u32,
    pub ino: Ino,
    pub made: &'a Made,
    /// Pages in a row, among which all changed ones are.
    pub row: Row,
    pub content: &'a C,
    ghost area: { base + area_length < 2 ^ 32 },
    ghost size: { (C.working content.now).size ≤ content_bytes_max },
    ghost own: { made.now.copy.slot.ino ≡ ino },
    ghost numbers: { (i : ℕ) → i < pages_of (C.working content.now).size → slice_index (numbers_in made.now.copy) i < pack_pages },
    ghost front: { length made.now.copy.slot.pages ≡ slot_pages },
    ghost most: { slot_pages + length made.now.copy.more ≤ content_pages_max },
    ghost few: { (k : ℕ) → k < content_tables_max → slice_index_or made.now.tables k false ≡ true → slice_index made.now.copy.slot.tables k < pack_tables },
    ghost changed: { HasChanged row.first row.stop (C.working content.now) },
    ghost ordered: { row.first ≤ row.stop },
    ghost inside: { row.stop ≤ pages_of (C.working content.now).size },
}

impl<C: NewContent> PieceSource for CommitPieces<'_, C> {
    ghost pieces = { λ p. pieces_of p.base p.made.now.copy (marked_tables p.made.now.tables) (C.working p.content.now) };

    fn write_to<D: Disk>(&self, disk: &mut D) -> Result<(), DiskFault> {
        write_pages(disk, self.base, &self.made.copy, self.row, self.content)?;
        write_tables(disk, self.base, self.made)?;
        write_slot(disk, self.base, self.ino, &self.made.copy)
    }
}

/// Writes page i at its data page, if it is changed.
fn write_page<D: Disk, C: NewContent>(
    disk: &mut D,
    base: u32,
    made: &InodeCopy,
    content: &C,
    i: u16,
) -> Result<(), DiskFault>
    requires area { base + area_length < 2 ^ 32 }
    requires few { i < content_pages_max }
    requires front { length made.now.slot.pages ≡ slot_pages }
    requires most { slot_pages + length made.now.more ≤ content_pages_max }
    requires number { slice_index (numbers_in made.now) i < pack_pages }
    requires within { AreWithin (piece_at (page_at base (slice_index (numbers_in made.now) i)) (shadow_page (C.working content.now).pages i)) (length (D.moment disk.old).seen) }
    ensures written { OnOk result ((D.moment disk.new).seen ≡ written (D.moment disk.old).seen (piece_at (page_at base (slice_index (numbers_in made.now) i)) (shadow_page (C.working content.now).pages i))) }
    ensures crash { Goes (TornIn (piece_at (page_at base (slice_index (numbers_in made.now) i)) (shadow_page (C.working content.now).pages i))) (D.moment disk.old) (D.moment disk.new) }
    ensures cause { HasCause (D.moment disk.old).faults (D.moment disk.new).faults result }
    ensures tells { TellsMany (length (piece_at (page_at base (slice_index (numbers_in made.now) i)) (shadow_page (C.working content.now).pages i))) (D.moment disk.old).passing (D.moment disk.new).passing result }
    ensures how { (D.moment disk.new).how ≡ (D.moment disk.old).how }
{
    let at = page_at(base, page_number(made, i));
    content.put_page(disk, at, i)
}

/// Writes the changed pages, each at its data page, ascending.
fn write_pages<D: Disk, C: NewContent>(
    disk: &mut D,
    base: u32,
    made: &InodeCopy,
    row: Row,
    content: &C,
) -> Result<(), DiskFault>
    requires area { base + area_length < 2 ^ 32 }
    requires size { (C.working content.now).size ≤ content_bytes_max }
    requires front { length made.now.slot.pages ≡ slot_pages }
    requires most { slot_pages + length made.now.more ≤ content_pages_max }
    requires numbers { (i : ℕ) → i < pages_of (C.working content.now).size → slice_index (numbers_in made.now) i < pack_pages }
    requires changed { HasChanged row.first row.stop (C.working content.now) }
    requires ordered { row.first ≤ row.stop }
    requires inside { row.stop ≤ pages_of (C.working content.now).size }
    requires within { AreWithin (page_pieces base (numbers_in made.now) (C.working content.now) (pages_of (C.working content.now).size)) (length (D.moment disk.old).seen) }
    ensures written { OnOk result ((D.moment disk.new).seen ≡ written (D.moment disk.old).seen (page_pieces base (numbers_in made.now) (C.working content.now) (pages_of (C.working content.now).size))) }
    ensures long { OnOk result (length (D.moment disk.new).seen ≡ length (D.moment disk.old).seen) }
    ensures crash { Goes (TornIn (page_pieces base (numbers_in made.now) (C.working content.now) (pages_of (C.working content.now).size))) (D.moment disk.old) (D.moment disk.new) }
    ensures cause { HasCause (D.moment disk.old).faults (D.moment disk.new).faults result }
    ensures tells { TellsMany (length (page_pieces base (numbers_in made.now) (C.working content.now) (pages_of (C.working content.now).size))) (D.moment disk.old).passing (D.moment disk.new).passing result }
    ensures how { (D.moment disk.new).how ≡ (D.moment disk.old).how }
{
    for i in row.first..row.stop {
        write_page(disk, base, made, content, i)?;
    }
    Ok(())
}

/// Writes the new tables, ascending.
fn write_tables<D: Disk>(disk: &mut D, base: u32, made: &Made) -> Result<(), DiskFault>
    requires area { base + area_length < 2 ^ 32 }
    requires most { slot_pages + length made.now.copy.more ≤ content_pages_max }
    requires few { (k : ℕ) → k < content_tables_max → slice_index_or made.now.tables k false ≡ true → slice_index made.now.copy.slot.tables k < pack_tables }
    requires within { AreWithin (table_pieces base made.now.copy (marked_tables made.now.tables)) (length (D.moment disk.old).seen) }
    ensures written { OnOk result ((D.moment disk.new).seen ≡ written (D.moment disk.old).seen (table_pieces base made.now.copy (marked_tables made.now.tables))) }
    ensures long { OnOk result (length (D.moment disk.new).seen ≡ length (D.moment disk.old).seen) }
    ensures crash { Goes (TornIn (table_pieces base made.now.copy (marked_tables made.now.tables))) (D.moment disk.old) (D.moment disk.new) }
    ensures cause { HasCause (D.moment disk.old).faults (D.moment disk.new).faults result }
    ensures tells { TellsMany (length (table_pieces base made.now.copy (marked_tables made.now.tables))) (D.moment disk.old).passing (D.moment disk.new).passing result }
    ensures how { (D.moment disk.new).how ≡ (D.moment disk.old).how }
{
    for k in 0..CONTENT_TABLES {
        if made.tables[k] {
            put_table(disk, base, made, k)?;
        }
    }
    Ok(())
}

/// Writes one table.
fn put_table<D: Disk>(disk: &mut D, base: u32, made: &Made, k: usize) -> Result<(), DiskFault>
    requires area { base + area_length < 2 ^ 32 }
    requires most { slot_pages + length made.now.copy.more ≤ content_pages_max }
    requires few { k < content_tables_max }
    requires number { slice_index made.now.copy.slot.tables k < pack_tables }
    requires within { AreWithin (table_piece base made.now.copy k ∷ []) (length (D.moment disk.old).seen) }
    ensures written { OnOk result ((D.moment disk.new).seen ≡ written (D.moment disk.old).seen (table_piece base made.now.copy k ∷ [])) }
    ensures crash { Goes (TornIn (table_piece base made.now.copy k ∷ [])) (D.moment disk.old) (D.moment disk.new) }
    ensures cause { HasCause (D.moment disk.old).faults (D.moment disk.new).faults result }
    ensures tells { TellsMany 1 (D.moment disk.old).passing (D.moment disk.new).passing result }
    ensures how { (D.moment disk.new).how ≡ (D.moment disk.old).how }
{
    let first = SLOT_PAGES + TABLE_PAGES * k;
    let mut bytes = [0; TABLE_LENGTH];
    let numbers = made.copy.numbers();
    write_table(&numbers[first..first + TABLE_PAGES], &mut bytes);
    disk.write_at(table_at(base, made.copy.slot.tables[k]), &bytes)
}

/// Writes the slot but for its gate.
fn write_slot<D: Disk>(disk: &mut D, base: u32, ino: Ino, made: &InodeCopy) -> Result<(), DiskFault>
    requires area { base + area_length < 2 ^ 32 }
    requires own { made.now.slot.ino ≡ ino }
    requires within { AreWithin (body_piece base made.now ∷ []) (length (D.moment disk.old).seen) }
    ensures written { OnOk result ((D.moment disk.new).seen ≡ written (D.moment disk.old).seen (body_piece base made.now ∷ [])) }
    ensures crash { Goes (TornIn (body_piece base made.now ∷ [])) (D.moment disk.old) (D.moment disk.new) }
    ensures cause { HasCause (D.moment disk.old).faults (D.moment disk.new).faults result }
    ensures tells { TellsMany 1 (D.moment disk.old).passing (D.moment disk.new).passing result }
    ensures how { (D.moment disk.new).how ≡ (D.moment disk.old).how }
{
    let mut body = [0; BODY_LENGTH];
    write_fields(&made.slot, &mut body[..FIELDS_LENGTH]);
    disk.write_at(slot_at(base, ino, made.half) + 1, &body)
}
