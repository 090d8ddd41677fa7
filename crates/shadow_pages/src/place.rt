ghost use Rattle.std.specs.Prelude.{◌≡◌, ℕ, ◌+◌, ◌-◌, ◌≤◌, ◌<◌, length, List, IfOk, OnOk, OnErr, None, Some, slice_index_or, nat_le, nat_lt, ◌&&◌, if◌then◌else◌, is_none, is_some, [], max, ◌*◌, ◌++◌, take, replicate};
ghost use Rattle.locus_ids.specs.Sizes.{page_bytes};
ghost use Rattle.file_content.specs.Pages.{pages_of};
ghost use Rattle.shadow_pages.specs.Working.{page_at, byte_in, number_changed, count_below};

use crate::page::Page;
use crate::span::pages_of;
use locus_ids::NoMemory;
use locus_ids::sizes::PAGE_BYTES;

/// How many pages are changed.
#[tactic(auto, using(crate::proofs::Counts::count_step))]
pub fn count_changed(pages: &[Option<Page>]) -> u16
    requires { length pages.now ≤ 1084 }
    ensures { result ≡ number_changed pages.now }
{
    let mut count = 0;
    for i in 0..pages.len() {
        if !is_unchanged(pages, i) {
            count += 1;
        }
    }
    count
}

pub fn is_unchanged(pages: &[Option<Page>], i: usize) -> bool
    ensures { result ≡ is_none (page_at pages.now i) }
{
    i >= pages.len() || pages[i].is_none()
}

/// Makes room for so many pages, those that are new unchanged.
pub fn grow(pages: &mut Vec<Option<Page>>, len: usize) -> Result<(), NoMemory>
    ensures room { OnOk result (len ≤ length pages.new.items) }
    ensures least { OnOk result (length pages.new.items ≡ max len (length pages.old.items)) }
    ensures pages { (i : ℕ) → page_at pages.new.items i ≡ page_at pages.old.items i }
    ensures count { number_changed pages.new.items ≡ number_changed pages.old.items }
    ensures err { OnErr result (pages.new.items ≡ pages.old.items) }
{
    let before = pages.len();
    for _ in before..len {
        if let Err(_) = pages.push(None) {
            pages.truncate(before);
            return Err(NoMemory);
        }
    }
    Ok(())
}

/// Puts pages in a row into their places, from the last to the first.
pub fn place(pages: &mut Vec<Option<Page>>, first: usize, made: Vec<Page>)
    requires { first + length made.items ≤ length pages.old.items }
    ensures len { length pages.new.items ≡ length pages.old.items }
    ensures placed { (i : ℕ) → page_at pages.new.items i ≡ (if nat_le first i && nat_lt i (first + length made.items) then Some (slice_index_or made.items (i - first) []) else page_at pages.old.items i) }
    ensures count { number_changed pages.new.items + count_below (λ i. is_none (page_at pages.old.items i)) first ≡ number_changed pages.old.items + count_below (λ i. is_none (page_at pages.old.items i)) (first + length made.items) }
{
    let mut made = made;
    while let Some(page) = made.pop() {
        let i = first + made.len();
        pages[i] = Some(page);
    }
}

/// Leaves of the pages what lies below a size: later pages are no longer changed, and zeros follow in the last one.
pub fn cut_pages(pages: &mut Vec<Option<Page>>, len: u32)
    requires { len ≤ 1110016 }
    ensures len { length pages.new.items ≤ pages_of len }
    ensures changed { (i : ℕ) → is_some (page_at pages.new.items i) ≡ (is_some (page_at pages.old.items i) && nat_lt (page_bytes * i) len) }
    ensures bytes { (i k old : ℕ) → k < page_bytes → page_bytes * i + k < len → byte_in (page_at pages.new.items i) k old ≡ byte_in (page_at pages.old.items i) k old }
    ensures zeros { (i k : ℕ) → k < page_bytes → len ≤ page_bytes * i + k → byte_in (page_at pages.new.items i) k 0 ≡ 0 }
{
    pages.truncate(pages_of(len) as usize);
    clear_page(
        pages,
        (len / PAGE_BYTES as u32) as usize,
        (len % PAGE_BYTES as u32) as usize,
    );
}

/// Makes the bytes of a page from a place on zeros, if it is changed.
fn clear_page(pages: &mut Vec<Option<Page>>, i: usize, from: usize)
    requires { from ≤ page_bytes }
    ensures len { length pages.new.items ≡ length pages.old.items }
    ensures others { (j : ℕ) → (j ≡ i → ⊥) → page_at pages.new.items j ≡ page_at pages.old.items j }
    ensures none { page_at pages.old.items i ≡ None → page_at pages.new.items i ≡ None }
    ensures cleared { (page : List ℕ) → page_at pages.old.items i ≡ Some page → page_at pages.new.items i ≡ Some (take from page ++ replicate (page_bytes - from) 0) }
{
    if i < pages.len() {
        if let Some(page) = &mut pages[i] {
            page.clear_from(from);
        }
    }
}
