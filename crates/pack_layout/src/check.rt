ghost use Rattle.std.specs.Prelude.{◌≡◌, ◌≢◌, ℕ, ◌<◌, ◌≤◌, ◌↔◌, length, IsTrue, slice_index};
ghost use Rattle.locus_ids.specs.Sizes.{pack_pages};
ghost use Rattle.pack_layout.specs.Layout.{NameApart, none, IsSlot};
ghost use Rattle.stored_versions.specs.Versions.{IsStamp, AgreesWith};

use crate::Slot;
use locus_ids::Stamp;
use locus_ids::sizes::{
    CONTENT_BYTES, INODES, PACK_PAGES, PACK_TABLES, PAGE_BYTES, SITES, SLOT_PAGES, TABLE_PAGES,
};

/// So many numbers are compared with each other.
const FEW: usize = 32;

fn is_stamp(stamp: Stamp) -> bool
    ensures { IsTrue result ↔ IsStamp stamp }
{
    if stamp.site == 0 {
        return stamp.n == 0;
    }
    stamp.site <= SITES as u8 && 1 <= stamp.n
}

fn are_zeros(counters: &[u32]) -> bool
    ensures { IsTrue result ↔ ((i : ℕ) → slice_index counters.now i ≡ 0) }
{
    for counter in counters {
        if *counter != 0 {
            return false;
        }
    }
    true
}

fn agrees_with(stamp: Stamp, counters: &[u32; SITES]) -> bool
    requires { IsStamp stamp }
    ensures { IsTrue result ↔ AgreesWith stamp counters.now }
{
    if stamp.site == 0 {
        return are_zeros(counters);
    }
    counters[stamp.site as usize - 1] == stamp.n
}

/// Whether the first `n` numbers are different ones below a limit.
pub fn are_apart(n: usize, limit: u16, numbers: &[u16]) -> bool
    requires few { n ≤ length numbers.now }
    requires limit { limit ≤ pack_pages }
    ensures { IsTrue result ↔ (((i : ℕ) → i < n → slice_index numbers.now i < limit) × ((i j : ℕ) → i < j → j < n → slice_index numbers.now i ≢ slice_index numbers.now j)) }
{
    if n <= FEW {
        are_few_apart(n, limit, numbers)
    } else {
        are_marked_apart(n, limit, numbers)
    }
}

/// The same of few numbers: each is compared with those before it.
fn are_few_apart(n: usize, limit: u16, numbers: &[u16]) -> bool
    requires { n ≤ length numbers.now }
    ensures { IsTrue result ↔ (((i : ℕ) → i < n → slice_index numbers.now i < limit) × ((i j : ℕ) → i < j → j < n → slice_index numbers.now i ≢ slice_index numbers.now j)) }
{
    for i in 0..n {
        if numbers[i] >= limit || is_among(numbers[i], i, numbers) {
            return false;
        }
    }
    true
}

/// Whether a number is one of the first `n`.
fn is_among(number: u16, n: usize, numbers: &[u16]) -> bool
    requires { n ≤ length numbers.now }
    ensures { IsTrue result ↔ ((i : ℕ) × (i < n) × (slice_index numbers.now i ≡ number)) }
{
    for i in 0..n {
        if numbers[i] == number {
            return true;
        }
    }
    false
}

/// The same of any: each is marked.
fn are_marked_apart(n: usize, limit: u16, numbers: &[u16]) -> bool
    requires few { n ≤ length numbers.now }
    requires limit { limit ≤ pack_pages }
    ensures { IsTrue result ↔ (((i : ℕ) → i < n → slice_index numbers.now i < limit) × ((i j : ℕ) → i < j → j < n → slice_index numbers.now i ≢ slice_index numbers.now j)) }
{
    let mut marks = [false; PACK_PAGES as usize];
    for i in 0..n {
        if numbers[i] >= limit || marks[usize::from(numbers[i])] {
            return false;
        }
        marks[usize::from(numbers[i])] = true;
    }
    true
}

/// Whether all numbers from the place `n` on name nothing.
pub fn are_none(n: usize, numbers: &[u16]) -> bool
    requires { n ≤ length numbers.now }
    ensures { IsTrue result ↔ ((i : ℕ) → n ≤ i → i < length numbers.now → slice_index numbers.now i ≡ none) }
{
    for i in n..numbers.len() {
        if numbers[i] != 0xFFFF {
            return false;
        }
    }
    true
}

fn name_apart(n: usize, limit: u16, numbers: &[u16]) -> bool
    requires few { n ≤ length numbers.now }
    requires limit { limit ≤ pack_pages }
    ensures { IsTrue result ↔ NameApart (length numbers.now) limit n numbers.now }
{
    are_apart(n, limit, numbers) && are_none(n, numbers)
}

/// Whether a slot may stand on a disk.
pub fn is_slot(slot: &Slot) -> bool
    ensures { IsTrue result ↔ IsSlot slot.now }
{
    if slot.turn > 2 || slot.ino < 1 || slot.ino > INODES {
        return false;
    }
    if slot.set.0 == 0 || slot.size > CONTENT_BYTES as u32 || !is_stamp(slot.stamp) {
        return false;
    }
    let pages = (slot.size as usize + (PAGE_BYTES - 1)) / PAGE_BYTES;
    let tables = (pages.max(SLOT_PAGES) - SLOT_PAGES + (TABLE_PAGES - 1)) / TABLE_PAGES;
    agrees_with(slot.stamp, &slot.vector.parts())
        && name_apart(pages.min(SLOT_PAGES), PACK_PAGES, &slot.pages)
        && name_apart(tables, PACK_TABLES, &slot.tables)
}
