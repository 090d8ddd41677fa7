// Which data pages the copies name, and whether two of them name one.
ghost use Rattle.std.specs.Prelude.{◌≡◌, ℕ, ◌+◌, ◌≤◌, ◌<◌, ◌^◌, length, take, drop, sum, slice_index, slice_index_or, nat_lt, false, IfOk, IfSome, MatchOption};
ghost use Rattle.locus_ids.specs.Sizes.{inodes_max, slot_pages, content_pages_max, content_tables_max, pack_pages, pack_tables};
ghost use Rattle.pack_slots.specs.Copies.{pages_in, named_pages, tables_in, named_tables, times};
ghost use Rattle.pack_slots.specs.Losing.{AreSlots, IsSlotApart};

use crate::InodeCopy;
use locus_ids::sizes::{PACK_PAGES, PACK_TABLES, PAGE_BYTES, SLOT_PAGES, TABLE_PAGES};
use std::alloc::{AllocError, Global};

/// How many copies name each data page, and the pages named in all.
#[derive(Drop)]
pub(crate) struct Uses {
    pub counts: Vec<u32>,
    pub total: u32,
}

/// Counts how often each data page is named.
pub(crate) fn count_uses(alloc: Global, copies: &[Option<InodeCopy>]) -> Result<Uses, AllocError>
    requires few { length copies.now ≤ inodes_max }
    requires slots { AreSlots copies.now }
    ensures count { IfOk result (λ uses. length uses.counts.items ≡ pack_pages) }
    ensures each { IfOk result (λ uses. (page : ℕ) → page < pack_pages → slice_index uses.counts.items page ≡ times page (named_pages copies.now)) }
    ensures sum { IfOk result (λ uses. sum uses.counts.items ≡ length (named_pages copies.now)) }
    ensures total { IfOk result (λ uses. uses.total ≡ length (named_pages copies.now)) }
{
    let mut counts = vec![in alloc; 0; PACK_PAGES as usize]?;
    let total = count_all(&mut counts, copies);
    Ok(Uses { counts, total })
}

/// Counts the pages of all copies, and says how many these are.
fn count_all(counts: &mut [u32], copies: &[Option<InodeCopy>]) -> u32
    requires count { length counts.old ≡ pack_pages }
    requires none { sum counts.old ≡ 0 }
    requires few { length copies.now ≤ inodes_max }
    requires slots { AreSlots copies.now }
    ensures each { (page : ℕ) → page < pack_pages → slice_index counts.new page ≡ times page (named_pages copies.now) }
    ensures sum { sum counts.new ≡ length (named_pages copies.now) }
    ensures total { result ≡ length (named_pages copies.now) }
{
    let mut total = 0;
    for copy in copies {
        let first = first_pages(copy);
        let more = more_pages(copy);
        count_pages(counts, first);
        count_pages(counts, more);
        total += (first.len() + more.len()) as u32;
    }
    total
}

/// The data pages of a copy that its slot names.
fn first_pages(copy: &Option<InodeCopy>) -> &[u16]
    requires { IfSome copy.now IsSlotApart }
    ensures pages { result.now ≡ take slot_pages (pages_in copy.now) }
    ensures few { length result.now ≤ slot_pages }
    ensures inside { (i : ℕ) → i < length result.now → slice_index result.now i < pack_pages }
{
    match copy {
        Some(copy) => {
            let pages = (copy.slot.size as usize + (PAGE_BYTES - 1)) / PAGE_BYTES;
            &copy.slot.pages[..pages.min(SLOT_PAGES)]
        }
        None => &[],
    }
}

/// The data pages of a copy that its tables name.
fn more_pages(copy: &Option<InodeCopy>) -> &[u16]
    requires { IfSome copy.now IsSlotApart }
    ensures pages { result.now ≡ drop slot_pages (pages_in copy.now) }
    ensures few { slot_pages + length result.now ≤ content_pages_max }
    ensures inside { (i : ℕ) → i < length result.now → slice_index result.now i < pack_pages }
{
    match copy {
        Some(copy) => {
            let pages = (copy.slot.size as usize + (PAGE_BYTES - 1)) / PAGE_BYTES;
            &copy.more.as_slice()[..pages.max(SLOT_PAGES) - SLOT_PAGES]
        }
        None => &[],
    }
}

/// The tables of a copy.
fn tables_in(copy: &Option<InodeCopy>) -> &[u16]
    requires { IfSome copy.now IsSlotApart }
    ensures tables { result.now ≡ tables_in copy.now }
    ensures few { length result.now ≤ content_tables_max }
    ensures inside { (k : ℕ) → k < length result.now → slice_index result.now k < pack_tables }
{
    match copy {
        Some(copy) => {
            let pages = (copy.slot.size as usize + (PAGE_BYTES - 1)) / PAGE_BYTES;
            let tables = (pages.max(SLOT_PAGES) - SLOT_PAGES + (TABLE_PAGES - 1)) / TABLE_PAGES;
            &copy.slot.tables[..tables]
        }
        None => &[],
    }
}

/// The least table that two copies name.
pub(crate) fn shared_table(copies: &[Option<InodeCopy>]) -> Option<u16>
    requires few { length copies.now ≤ inodes_max }
    requires slots { AreSlots copies.now }
    ensures { MatchOption result ((table : ℕ) → times table (named_tables copies.now) ≤ 1) (λ table. (1 < times table (named_tables copies.now)) × ((lower : ℕ) → lower < table → times lower (named_tables copies.now) ≤ 1)) }
{
    let mut counts = [0; PACK_TABLES as usize];
    for copy in copies {
        count_pages(&mut counts, tables_in(copy));
    }
    least_shared(&counts)
}

/// Which tables the copies name.
pub fn used_tables(copies: &[Option<InodeCopy>]) -> [bool; PACK_TABLES as usize]
    requires slots { AreSlots copies.now }
    ensures { (table : ℕ) → table < pack_tables → slice_index_or result table false ≡ nat_lt 0 (times table (named_tables copies.now)) }
{
    let mut used = [false; PACK_TABLES as usize];
    for copy in copies {
        for table in tables_in(copy) {
            used[usize::from(*table)] = true;
        }
    }
    used
}

/// Counts these numbers.
fn count_pages(counts: &mut [u32], pages: &[u16])
    requires room { sum counts.old + length pages.now < 2 ^ 32 }
    requires inside { (i : ℕ) → i < length pages.now → slice_index pages.now i < length counts.old }
    ensures each { (page : ℕ) → page < length counts.old → slice_index counts.new page ≡ slice_index counts.old page + times page pages.now }
    ensures sum { sum counts.new ≡ sum counts.old + length pages.now }
{
    for page in pages {
        counts[usize::from(*page)] += 1;
    }
}

/// The least number that is counted twice.
pub(crate) fn least_shared(counts: &[u32]) -> Option<u16>
    requires { length counts.now ≤ pack_pages }
    ensures { MatchOption result ((number : ℕ) → number < length counts.now → slice_index counts.now number ≤ 1) (λ number. (number < length counts.now) × (1 < slice_index counts.now number) × ((lower : ℕ) → lower < number → slice_index counts.now lower ≤ 1)) }
{
    for number in 0..counts.len() as u16 {
        if counts[usize::from(number)] > 1 {
            return Some(number);
        }
    }
    None
}
