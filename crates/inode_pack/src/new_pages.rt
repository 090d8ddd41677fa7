// The data pages that a new content takes.
ghost use Rattle.std.specs.Prelude.{◌≡◌, ◌≢◌, ◌≤◌, ◌<◌, ◌+◌, ◌-◌, ◌==◌, ℕ, length, slice_index, slice_set, Some, OnOk, OnErr, IfOk};
ghost use Rattle.locus_ids.specs.Sizes.{content_bytes_max, content_pages_max, slot_pages, pack_pages};
ghost use Rattle.file_content.specs.Pages.{pages_of};
ghost use Rattle.pack_layout.specs.Layout.{numbers_of};
ghost use Rattle.new_contents.specs.of_shadow_pages.Working.{count_below};
ghost use Rattle.pack_slots.specs.declared.inode_copy.InodeCopy.{InodeCopy};
ghost use Rattle.inode_pack.specs.PagePieces.{AreWhole};
ghost use Rattle.inode_pack.specs.Pack.{number_in};
ghost use Rattle.inode_pack.specs.Rows.{NoneBelow};
ghost use Rattle.pack_slots.specs.Losing.{IsSlotApart};
ghost use Rattle.new_contents.specs.Changed.{needed};
ghost use Rattle.inode_pack.specs.Committing.{TakesPages};

use crate::pages::page_number;
use locus_ids::sizes::{PACK_PAGES, SLOT_PAGES};
use locus_ids::{ItemList, NoMemory};
use new_contents::{NewContent, page_count};
use pack_slots::InodeCopy;
use std::alloc::Global;

/// The first free data page from a number on. There is one.
fn next_free(uses: &[u32], from: u16) -> u16
    requires count { length uses.now ≡ pack_pages }
    requires some { count_below (λ p. slice_index uses.now p == 0) from < count_below (λ p. slice_index uses.now p == 0) (length uses.now) }
    ensures low { from ≤ result }
    ensures inside { result < pack_pages }
    ensures free { slice_index uses.now result ≡ 0 }
    ensures least { (p : ℕ) → from ≤ p → p < result → slice_index uses.now p ≢ 0 }
{
    for p in from..PACK_PAGES {
        if uses[usize::from(p)] == 0 {
            return p;
        }
    }
    PACK_PAGES
}

/// The page numbers of a content: those of its slot, and those that stand in its tables.
#[derive(Drop)]
pub struct Numbers {
    pub first: [u16; SLOT_PAGES],
    pub more: ItemList<u16>,
}

/// The data page of a page of a content so far; 0 where there is none.
fn number_before(old: &Option<InodeCopy>, page: u16) -> u16
    requires old { (one : InodeCopy) → old.now ≡ Some one → IsSlotApart one }
    requires most { page < content_pages_max }
    ensures { result ≡ number_in old.now page }
{
    match old {
        Some(copy) => page_number(copy, page),
        None => 0,
    }
}

/// A page has this number, where those before it have theirs.
fn add(numbers: &mut Numbers, page: u16, number: u16) -> Result<(), NoMemory>
    requires most { page < content_pages_max }
    requires front { length numbers.old.first ≡ slot_pages }
    requires before { length numbers.old.more ≡ page - slot_pages }
    ensures front { length numbers.new.first ≡ slot_pages }
    ensures more { OnOk result (length numbers.new.more ≡ page + 1 - slot_pages) }
    ensures no_memory { OnErr result (slot_pages ≤ page) }
    ensures set { OnOk result (numbers_of numbers.new.first numbers.new.more ≡ slice_set (numbers_of numbers.old.first numbers.old.more) page number) }
{
    let at = usize::from(page);
    if at < SLOT_PAGES {
        numbers.first[at] = number;
        return Ok(());
    }
    numbers.more.push(number)
}

/// The data pages of a new content: those that are unchanged stay, the changed ones take the least free ones.
pub fn take_pages<C: NewContent>(
    alloc: Global,
    uses: &[u32],
    least: u16,
    old: &Option<InodeCopy>,
    content: &C,
) -> Result<Numbers, NoMemory>
    requires count { length uses.now ≡ pack_pages }
    requires old { (one : InodeCopy) → old.now ≡ Some one → IsSlotApart one }
    requires least { NoneBelow least uses.now }
    requires size { (C.working content.now).size ≤ content_bytes_max }
    requires room { needed (C.working content.now) ≤ count_below (λ p. slice_index uses.now p == 0) (length uses.now) }
    ensures takes { IfOk result (λ numbers. TakesPages (λ p. slice_index uses.now p == 0) old.now (C.working content.now) (numbers_of numbers.first numbers.more)) }
    ensures front { IfOk result (λ numbers. length numbers.first ≡ slot_pages) }
    ensures few { IfOk result (λ numbers. slot_pages + length numbers.more ≤ content_pages_max) }
    ensures whole { IfOk result (λ numbers. AreWhole (C.working content.now) (pages_of (C.working content.now).size)) }
    ensures no_memory { OnErr result (slot_pages < pages_of (C.working content.now).size) }
{
    let mut numbers = Numbers {
        first: [0xFFFF; SLOT_PAGES],
        more: ItemList::new(alloc),
    };
    let mut from = least;
    for i in 0..page_count(content.size()) {
        let mut number = number_before(old, i);
        if content.is_changed(i) {
            number = next_free(uses, from);
            from = number + 1;
        }
        add(&mut numbers, i, number)?;
    }
    Ok(numbers)
}
