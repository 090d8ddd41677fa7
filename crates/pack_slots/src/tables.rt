// The tables of the slots that count.
ghost use Rattle.std.specs.Prelude.{◌≡◌, ◌++◌, ℕ, ◌+◌, ◌*◌, ◌^◌, ◌≤◌, ◌<◌, true, false, List, [], length, take, drop, Ok, Some, IfErr, None, IfSome, OnOk, slice_index, slice_index_or};
ghost use Rattle.locus_ids.specs.Sizes.{inodes_max, page_bytes, slot_pages, table_pages, content_pages_max, content_tables_max, pack_tables};
ghost use Rattle.disk_model.specs.Disk.{Goes, HasCause, TellsRead};
ghost use Rattle.disk_model.specs.Images.{bytes_at, Same};
ghost use Rattle.pack_layout.specs.Layout.{area_length, table_at, table_bytes, numbers_under};
ghost use Rattle.pack_slots.specs.Slots.{HasMore};
ghost use Rattle.pack_slots.specs.Mounting.{IsPassing, disk_answer};
ghost use Rattle.pack_slots.specs.Tables.{IsUnread, AreRead, IsTableFault};

use crate::{InodeCopy, MountFault};
use disk_model::{Disk, DiskFault};
use locus_ids::sizes::{CONTENT_PAGES, PACK_PAGES, PAGE_BYTES, SLOT_PAGES, TABLE_PAGES};
use locus_ids::{ItemList, NoMemory};
use pack_layout::layout::TABLE_LENGTH;
use pack_layout::{are_apart, are_none, read_table, table_at};

/// Reads the tables of all copies, each once, inodes ascending. `BadSlot` names the first inode whose tables don't name
/// different pages with its slot.
pub(crate) fn read_tables<D: Disk>(
    disk: &mut D,
    base: u32,
    copies: &mut [Option<InodeCopy>],
) -> Result<(), MountFault>
    requires area { base + area_length ≤ length (D.moment disk.old).seen }
    requires few { length copies.old ≤ inodes_max }
    requires unread { (i : ℕ) → IfSome (slice_index_or copies.old i None) IsUnread }
    ensures count { length copies.new ≡ length copies.old }
    ensures read { OnOk result (AreRead base (D.moment disk.old).seen (length copies.old) copies.old copies.new) }
    ensures bad { IfErr result (λ fault. IsTableFault base (D.moment disk.old).seen copies.old copies.new fault) }
    ensures seen { (D.moment disk.new).seen ≡ (D.moment disk.old).seen }
    ensures crash { Goes Same (D.moment disk.old) (D.moment disk.new) }
    ensures cause { HasCause (D.moment disk.old).faults (D.moment disk.new).faults (disk_answer result) }
    ensures tells { TellsRead (D.moment disk.old).passing (D.moment disk.new).passing (disk_answer result) }
    ensures how { (D.moment disk.new).how ≡ (D.moment disk.old).how }
{
    for i in 0..copies.len() {
        if let Some(copy) = &mut copies[i] {
            if !read_copy(disk, base, copy)? {
                return Err(MountFault::BadSlot { ino: i as u16 + 1 });
            }
        }
    }
    Ok(())
}

/// Reads the tables of a copy, and says whether they name different pages with its slot.
fn read_copy<D: Disk>(disk: &mut D, base: u32, copy: &mut InodeCopy) -> Result<bool, MountFault>
    requires area { base + area_length ≤ length (D.moment disk.old).seen }
    requires unread { IsUnread copy.old }
    ensures half { copy.new.half ≡ copy.old.half }
    ensures slot { copy.new.slot ≡ copy.old.slot }
    ensures has { result ≡ Ok true → HasMore base copy.old.slot copy.new.more (D.moment disk.old).seen }
    ensures fault { IfErr result (λ fault. IsPassing fault) }
    ensures bad { result ≡ Ok false → (more : List ℕ) → HasMore base copy.old.slot more (D.moment disk.old).seen → ⊥ }
    ensures seen { (D.moment disk.new).seen ≡ (D.moment disk.old).seen }
    ensures crash { Goes Same (D.moment disk.old) (D.moment disk.new) }
    ensures cause { HasCause (D.moment disk.old).faults (D.moment disk.new).faults (disk_answer result) }
    ensures tells { TellsRead (D.moment disk.old).passing (D.moment disk.new).passing (disk_answer result) }
    ensures how { (D.moment disk.new).how ≡ (D.moment disk.old).how }
{
    let pages = (copy.slot.size as usize + (PAGE_BYTES - 1)) / PAGE_BYTES;
    if pages <= SLOT_PAGES {
        return Ok(true);
    }
    let tables = (pages - SLOT_PAGES + (TABLE_PAGES - 1)) / TABLE_PAGES;
    let mut numbers = [0xFFFF; CONTENT_PAGES];
    numbers[..SLOT_PAGES].copy_from_slice(&copy.slot.pages);
    read_numbers(disk, base, &copy.slot.tables[..tables], &mut numbers)?;
    if !are_apart(pages, PACK_PAGES, &numbers) || !are_none(pages, &numbers) {
        return Ok(false);
    }
    add_all(&mut copy.more, &numbers[SLOT_PAGES..pages])?;
    Ok(true)
}

/// Reads these tables, behind the numbers that the slot has.
fn read_numbers<D: Disk>(
    disk: &mut D,
    base: u32,
    tables: &[u16],
    numbers: &mut [u16],
) -> Result<(), DiskFault>
    requires area { base + area_length ≤ length (D.moment disk.old).seen }
    requires few { length tables.now ≤ content_tables_max }
    requires inside { (k : ℕ) → k < length tables.now → slice_index tables.now k < pack_tables }
    requires count { length numbers.old ≡ content_pages_max }
    ensures count { length numbers.new ≡ content_pages_max }
    ensures fits { (i : ℕ) → slice_index numbers.new i < 2 ^ 16 }
    ensures first { take slot_pages numbers.new ≡ take slot_pages numbers.old }
    ensures read { OnOk result ((k : ℕ) → k < length tables.now → bytes_at (D.moment disk.old).seen (table_at base (slice_index tables.now k)) page_bytes ≡ table_bytes (numbers_under numbers.new k)) }
    ensures rest { drop (slot_pages + table_pages * length tables.now) numbers.new ≡ drop (slot_pages + table_pages * length tables.now) numbers.old }
    ensures seen { (D.moment disk.new).seen ≡ (D.moment disk.old).seen }
    ensures crash { Goes Same (D.moment disk.old) (D.moment disk.new) }
    ensures cause { HasCause (D.moment disk.old).faults (D.moment disk.new).faults result }
    ensures tells { TellsRead (D.moment disk.old).passing (D.moment disk.new).passing result }
    ensures how { (D.moment disk.new).how ≡ (D.moment disk.old).how }
{
    let _len = disk.len();
    for k in 0..tables.len() {
        let mut bytes = [0; TABLE_LENGTH];
        disk.read(table_at(base, tables[k]), &mut bytes)?;
        let first = SLOT_PAGES + TABLE_PAGES * k;
        read_table(&bytes, &mut numbers[first..first + TABLE_PAGES]);
    }
    Ok(())
}

/// Adds these numbers.
fn add_all(out: &mut ItemList<u16>, numbers: &[u16]) -> Result<(), NoMemory>
    ensures { OnOk result (out.new ≡ out.old ++ numbers.now) }
{
    for number in numbers {
        out.push(*number)?;
    }
    Ok(())
}
