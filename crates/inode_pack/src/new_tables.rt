// The tables that a new content takes, for the pages that its slot has no room for.
ghost use Rattle.std.specs.Prelude.{◌≡◌, ◌≤◌, ◌<◌, ◌==◌, ℕ, not, length, slice_index, slice_index_or, true, false, Some};
ghost use Rattle.std.specs.List.{list_any};
ghost use Rattle.locus_ids.specs.Sizes.{content_bytes_max, content_pages_max, content_tables_max, pack_tables};
ghost use Rattle.file_content.specs.Pages.{pages_of, pages_under, tables_of, is_under};
ghost use Rattle.pack_layout.specs.Layout.{none, IsSlot};
ghost use Rattle.new_contents.specs.of_shadow_pages.Working.{count_below};
ghost use Rattle.new_contents.specs.Changed.{HasChanged};
ghost use Rattle.pack_slots.specs.declared.inode_copy.InodeCopy.{InodeCopy};
ghost use Rattle.pack_slots.specs.Losing.{AreSlots};
ghost use Rattle.inode_pack.specs.Committing.{changed_below, is_free_table, is_table_over, table_in, Takes};

use crate::usage::pages_named;
use locus_ids::sizes::{CONTENT_TABLES, PACK_TABLES, SLOT_PAGES, TABLE_PAGES};
use new_contents::{NewContent, Row, page_count};
use pack_slots::{InodeCopy, used_tables};

/// Which tables of a content are written.
pub type Written = [bool; CONTENT_TABLES];

/// How many of so many pages stand under a table.
fn pages_under(table: u16, pages: u16) -> u16
    requires { table < content_tables_max }
    ensures { result ≡ pages_under table pages }
{
    let first = SLOT_PAGES as u16 + TABLE_PAGES as u16 * table;
    (pages.max(first) - first).min(TABLE_PAGES as u16)
}

/// How many tables so many pages take.
pub fn tables_of(pages: u16) -> u16
    requires { pages ≤ content_pages_max }
    ensures number { result ≡ tables_of pages }
    ensures most { result ≤ content_tables_max }
{
    let first = SLOT_PAGES as u16;
    (pages.max(first) - first + (TABLE_PAGES as u16 - 1)) / TABLE_PAGES as u16
}

/// One of the pages under a table is changed.
fn changes_under<C: NewContent>(content: &C, row: Row, table: u16) -> bool
    requires size { (C.working content.now).size ≤ content_bytes_max }
    requires table { table < content_tables_max }
    requires changed { HasChanged row.first row.stop (C.working content.now) }
    requires ordered { row.first ≤ row.stop }
    requires inside { row.stop ≤ pages_of (C.working content.now).size }
    ensures { result ≡ list_any (is_under table) (changed_below (C.working content.now) (pages_of (C.working content.now).size)) }
{
    let first = SLOT_PAGES as u16 + TABLE_PAGES as u16 * table;
    let stop = row.stop.min(first + TABLE_PAGES as u16);
    for i in row.first.max(first)..stop {
        if content.is_changed(i) {
            return true;
        }
    }
    false
}

/// Which tables are written: those that have pages under them, and other ones than before.
pub fn written_tables<C: NewContent>(old: &Option<InodeCopy>, row: Row, content: &C) -> Written
    requires old { (one : InodeCopy) → old.now ≡ Some one → IsSlot one.slot }
    requires size { (C.working content.now).size ≤ content_bytes_max }
    requires changed { HasChanged row.first row.stop (C.working content.now) }
    requires ordered { row.first ≤ row.stop }
    requires inside { row.stop ≤ pages_of (C.working content.now).size }
    ensures { (k : ℕ) → k < content_tables_max → slice_index_or result k false ≡ is_table_over old.now (C.working content.now) k }
{
    let before = pages_named(old);
    let now = page_count(content.size());
    let mut written = [false; CONTENT_TABLES];
    for k in 0..CONTENT_TABLES as u16 {
        let under = pages_under(k, now);
        written[usize::from(k)] = under > 0
            && (pages_under(k, before) != under || changes_under(content, row, k));
    }
    written
}

/// The first table from a number on that isn't used. There is one.
fn next_free(used: &[bool; PACK_TABLES as usize], from: u16) -> u16
    requires some { count_below (λ t. not (slice_index_or used.now t true)) from < count_below (λ t. not (slice_index_or used.now t true)) pack_tables }
    ensures low { from ≤ result }
    ensures inside { result < pack_tables }
    ensures free { slice_index_or used.now result true ≡ false }
    ensures least { (t : ℕ) → from ≤ t → t < result → slice_index_or used.now t true ≡ true }
{
    for table in from..PACK_TABLES {
        if !used[usize::from(table)] {
            return table;
        }
    }
    PACK_TABLES
}

/// The tables of a content so far; 0 where there is none.
fn tables_before(old: &Option<InodeCopy>) -> [u16; CONTENT_TABLES]
    ensures { (k : ℕ) → k < content_tables_max → slice_index result k ≡ table_in old.now k }
{
    match old {
        Some(copy) => copy.slot.tables,
        None => [0; CONTENT_TABLES],
    }
}

/// From the end of a content on no table is named.
fn end_at(tables: &mut [u16; CONTENT_TABLES], end: usize)
    requires { end ≤ content_tables_max }
    ensures before { (k : ℕ) → k < end → slice_index tables.new k ≡ slice_index tables.old k }
    ensures rest { (k : ℕ) → end ≤ k → k < content_tables_max → slice_index tables.new k ≡ none }
{
    for k in end..CONTENT_TABLES {
        tables[k] = 0xFFFF;
    }
}

/// The tables of a new content of so many pages: those that aren't written stay, the written ones take the least free ones.
pub fn take_tables(
    copies: &[Option<InodeCopy>],
    old: &Option<InodeCopy>,
    written: Written,
    pages: u16,
) -> [u16; CONTENT_TABLES]
    requires few { pages ≤ content_pages_max }
    requires slots { AreSlots copies.now }
    requires room { content_tables_max ≤ count_below (is_free_table copies.now) pack_tables }
    ensures takes { Takes content_tables_max pack_tables (tables_of pages) (is_free_table copies.now) (table_in old.now) (λ k. slice_index_or written k false) result }
{
    let end = usize::from(tables_of(pages));
    if end == 0 {
        return [0xFFFF; CONTENT_TABLES];
    }
    let used = used_tables(copies);
    let mut tables = tables_before(old);
    let mut from = 0;
    for k in 0..end {
        if written[k] {
            let found = next_free(&used, from);
            tables[k] = found;
            from = found + 1;
        }
    }
    end_at(&mut tables, end);
    tables
}
