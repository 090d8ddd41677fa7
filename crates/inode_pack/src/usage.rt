// How often each data page is named.
ghost use Rattle.std.specs.Prelude.{◌≡◌, ◌⊎◌, ◌≤◌, ◌<◌, ◌+◌, ◌==◌, ◌^◌, ℕ, length, slice_index, Option, Some, None, replicate, if◌then◌else◌};
ghost use Rattle.locus_ids.specs.Sizes.{content_pages_max, pack_pages};
ghost use Rattle.file_content.specs.Pages.{pages_of};
ghost use Rattle.pack_layout.specs.Layout.{IsSlot, none};
ghost use Rattle.pack_slots.specs.declared.inode_copy.InodeCopy.{InodeCopy};
ghost use Rattle.pack_slots.specs.Copies.{numbers_in, pages_in, times};
ghost use Rattle.pack_slots.specs.Losing.{IsSlotApart};
ghost use Rattle.inode_pack.specs.Rows.{SameButFor, NoneBelow, numbers_so_far};
ghost use Rattle.inode_pack.specs.Committing.{pages_before};

use crate::pages::page_number;
use locus_ids::sizes::PACK_PAGES;
use new_contents::{Row, page_count};
use pack_slots::InodeCopy;

/// A number is named once less, where it is a data page.
fn release(uses: &mut Vec<u32>, page: u16)
    requires count { length uses.old.items ≡ pack_pages }
    requires once { page < pack_pages → 1 ≤ slice_index uses.old.items page }
    ensures long { length uses.new.items ≡ pack_pages }
    ensures named { (p : ℕ) → p < pack_pages → slice_index uses.new.items p + (if page == p then 1 else 0) ≡ slice_index uses.old.items p }
{
    if page >= PACK_PAGES {
        return;
    }
    uses[usize::from(page)] -= 1;
}

/// A number is named once more, where it is a data page.
fn claim(uses: &mut Vec<u32>, page: u16)
    requires count { length uses.old.items ≡ pack_pages }
    requires few { page < pack_pages → slice_index uses.old.items page + 1 < 2 ^ 32 }
    ensures long { length uses.new.items ≡ pack_pages }
    ensures named { (p : ℕ) → p < pack_pages → slice_index uses.new.items p ≡ slice_index uses.old.items p + (if page == p then 1 else 0) }
{
    if page >= PACK_PAGES {
        return;
    }
    uses[usize::from(page)] += 1;
}

/// One number is named in the place of another one. Where both are the same, nothing is done. It gives a number below which
/// no data page is free then, as none is below `least` before.
fn pass_page(uses: &mut Vec<u32>, old: u16, made: u16, least: u16) -> u16
    requires count { length uses.old.items ≡ pack_pages }
    requires once { old < pack_pages → 1 ≤ slice_index uses.old.items old }
    requires few { made < pack_pages → slice_index uses.old.items made + 1 < 2 ^ 32 }
    requires least { NoneBelow least uses.old.items }
    ensures long { length uses.new.items ≡ pack_pages }
    ensures named { (p : ℕ) → p < pack_pages → slice_index uses.new.items p + (if old == p then 1 else 0) ≡ slice_index uses.old.items p + (if made == p then 1 else 0) }
    ensures least { NoneBelow result uses.new.items }
{
    if old == made {
        return least;
    }
    release(uses, old);
    claim(uses, made);
    least.min(old)
}

/// The number of a page of a content so far: none where there is none.
fn number_so_far(old: &Option<InodeCopy>, page: u16) -> u16
    requires most { page < content_pages_max }
    requires old { (one : InodeCopy) → old.now ≡ Some one → IsSlotApart one }
    ensures { result ≡ slice_index (numbers_so_far old.now) page }
{
    match old {
        Some(one) => page_number(one, page),
        None => 0xFFFF,
    }
}

/// The numbers of one content are named in the place of those of another one, which are the same but for a row.
fn pass_all(
    uses: &mut Vec<u32>,
    old: &Option<InodeCopy>,
    made: &InodeCopy,
    row: Row,
    least: u16,
) -> u16
    requires count { length uses.old.items ≡ pack_pages }
    requires old { (one : InodeCopy) → old.now ≡ Some one → IsSlotApart one }
    requires made { IsSlotApart made.now }
    requires once { (p : ℕ) → p < pack_pages → times p (numbers_so_far old.now) ≤ slice_index uses.old.items p }
    requires few { (p : ℕ) → p < pack_pages → slice_index uses.old.items p + times p (numbers_in made.now) < 2 ^ 32 }
    requires least { NoneBelow least uses.old.items }
    requires ordered { row.first ≤ row.stop }
    requires inside { row.stop ≤ content_pages_max }
    requires same { SameButFor row.first row.stop (numbers_so_far old.now) (numbers_in made.now) }
    ensures long { length uses.new.items ≡ pack_pages }
    ensures named { (p : ℕ) → p < pack_pages → slice_index uses.new.items p + times p (numbers_so_far old.now) ≡ slice_index uses.old.items p + times p (numbers_in made.now) }
    ensures least { NoneBelow result uses.new.items }
{
    let mut least = least;
    for i in row.first..row.stop {
        least = pass_page(uses, number_so_far(old, i), page_number(made, i), least);
    }
    least
}

/// The first number from one on whose data page is free. None below that one is.
pub fn first_free(uses: &[u32], from: u16) -> u16
    requires count { length uses.now ≡ pack_pages }
    requires least { NoneBelow from uses.now }
    ensures { NoneBelow result uses.now }
{
    for page in from..PACK_PAGES {
        if uses[usize::from(page)] == 0 {
            return page;
        }
    }
    PACK_PAGES
}

/// A row in which the data pages of an inode's copy so far differ from those of its next one, whose content has `end` pages
/// and changed only those of a row.
pub fn row_to_pass(old: &Option<InodeCopy>, row: Row, end: u16) -> Row
    requires slot { (one : InodeCopy) → old.now ≡ Some one → IsSlot one.slot }
    requires ordered { row.first ≤ row.stop }
    requires inside { row.stop ≤ content_pages_max }
    ensures ordered { result.first ≤ result.stop }
    ensures inside { result.stop ≤ content_pages_max }
    ensures first { old.now ≡ None → (result.first ≡ row.first) × (result.stop ≡ row.stop) }
    ensures covers { (one : InodeCopy) → old.now ≡ Some one → ((result.first ≡ 0) × (result.stop ≡ pages_of one.slot.size) × (end ≤ pages_of one.slot.size)) ⊎ ((result.first ≡ row.first) × (result.stop ≡ row.stop) × (pages_of one.slot.size ≤ end)) }
{
    let named = pages_named(old);
    if named <= end {
        row
    } else {
        Row {
            first: 0,
            stop: named,
        }
    }
}

/// The number of data pages that a copy names.
pub fn pages_named(copy: &Option<InodeCopy>) -> u16
    requires { (one : InodeCopy) → copy.now ≡ Some one → IsSlot one.slot }
    ensures number { result ≡ length (pages_in copy.now) }
    ensures before { result ≡ pages_before copy.now }
    ensures most { result ≤ content_pages_max }
{
    match copy {
        Some(one) => page_count(one.slot.size),
        None => 0,
    }
}

/// The pages of one copy are named no more, and those of another one are. Both have the same but for a row. It gives a
/// number below which no data page is free then, as none is below `least` before.
pub fn pass_pages(
    uses: &mut Vec<u32>,
    old: &Option<InodeCopy>,
    made: &InodeCopy,
    row: Row,
    least: u16,
) -> u16
    requires count { length uses.old.items ≡ pack_pages }
    requires old { (one : InodeCopy) → old.now ≡ Some one → IsSlotApart one }
    requires made { IsSlotApart made.now }
    requires once { (p : ℕ) → p < pack_pages → times p (pages_in old.now) ≤ slice_index uses.old.items p }
    requires few { (p : ℕ) → p < pack_pages → slice_index uses.old.items p + times p (numbers_in made.now) < 2 ^ 32 }
    requires least { NoneBelow least uses.old.items }
    requires ordered { row.first ≤ row.stop }
    requires inside { row.stop ≤ content_pages_max }
    requires same { (one : InodeCopy) → old.now ≡ Some one → SameButFor row.first row.stop (numbers_in one) (numbers_in made.now) }
    requires none { old.now ≡ None → SameButFor row.first row.stop (replicate content_pages_max none) (numbers_in made.now) }
    ensures long { length uses.new.items ≡ pack_pages }
    ensures named { (p : ℕ) → p < pack_pages → slice_index uses.new.items p + times p (pages_in old.now) ≡ slice_index uses.old.items p + times p (numbers_in made.now) }
    ensures least { NoneBelow result uses.new.items }
{
    pass_all(uses, old, made, row, least)
}
