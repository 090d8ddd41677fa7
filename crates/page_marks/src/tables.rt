// How many tables of page numbers a version writes.
ghost use Rattle.std.specs.Prelude.{◌≡◌, ◌-◌, ◌≤◌, ◌<◌, ℕ, List, length, Option};
ghost use Rattle.std.specs.Option.{option_map};
ghost use Rattle.std.specs.List.{list_any};
ghost use Rattle.locus_ids.specs.Sizes.{content_bytes_max, content_pages_max, content_tables_max};
ghost use Rattle.file_content.specs.Pages.{pages_of, pages_from, pages_under, is_table_written, tables_written};
ghost use Rattle.role_steps.specs.Storage.{content_of, reported};
ghost use Rattle.role_steps.specs.declared.copies.FileCopy.{FileCopy};
ghost use Rattle.new_contents.specs.Marked.{is_marked};
ghost use Rattle.page_marks.specs.Marking.{AreMarked};

use locus_ids::sizes::{CONTENT_PAGES, CONTENT_TABLES, PAGE_BYTES, SLOT_PAGES, TABLE_PAGES};
use role_steps::wire_messages::ReportedCopy;

/// How many pages a copy has that is reported so; none where there is no copy.
pub fn pages_before(copy: &Option<ReportedCopy>) -> usize
    ensures { (held : Option FileCopy) → copy.now ≡ option_map reported held → result ≡ pages_of (length (content_of held)) }
{
    match copy {
        Some(copy) => (copy.size as usize).div_ceil(PAGE_BYTES),
        None => 0,
    }
}

/// The bytes of a copy that is reported so; none where there is no copy.
pub fn size_of(copy: &Option<ReportedCopy>) -> usize
    ensures { (held : Option FileCopy) → copy.now ≡ option_map reported held → result ≡ length (content_of held) }
{
    match copy {
        Some(copy) => copy.size as usize,
        None => 0,
    }
}

/// How many tables are written with the marked pages of a content of so many bytes, over one of so many pages.
pub fn tables_written(before: usize, size: usize, marks: &[bool; CONTENT_PAGES]) -> usize
    requires { size ≤ content_bytes_max }
    ensures count { (changed : List ℕ) → AreMarked (pages_of size) changed marks.now → result ≡ length (tables_written before (pages_of size) changed) }
    ensures few { result ≤ content_tables_max }
{
    let now = size.div_ceil(PAGE_BYTES);
    let mut written = 0;
    for table in 0..CONTENT_TABLES {
        if is_table_written(before, now, table, marks) {
            written += 1;
        }
    }
    written
}

/// The table is written with the marked ones of so many pages.
fn is_table_written(before: usize, now: usize, table: usize, marks: &[bool; CONTENT_PAGES]) -> bool
    requires inside { table < content_tables_max }
    requires few { now ≤ content_pages_max }
    ensures { (changed : List ℕ) → AreMarked now changed marks.now → result ≡ is_table_written before now changed table }
{
    let under = pages_under(table, now);
    if under == 0 {
        return false;
    }
    if under != pages_under(table, before) {
        return true;
    }
    let first = SLOT_PAGES + TABLE_PAGES * table;
    is_one_marked(marks, first, first + under)
}

/// How many of so many pages stand under a table.
fn pages_under(table: usize, pages: usize) -> usize
    requires { table < content_tables_max }
    ensures { result ≡ pages_under table pages }
{
    let first = SLOT_PAGES + TABLE_PAGES * table;
    (pages.max(first) - first).min(TABLE_PAGES)
}

/// One of the pages from one up to another is marked.
fn is_one_marked(marks: &[bool; CONTENT_PAGES], first: usize, stop: usize) -> bool
    requires { stop ≤ content_pages_max }
    ensures { result ≡ list_any (is_marked marks.now) (pages_from first (stop - first)) }
{
    for page in first..stop {
        if marks[page] {
            return true;
        }
    }
    false
}
