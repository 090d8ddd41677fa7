ghost use Rattle.std.specs.Prelude.{◌≡◌, ◌*◌, ◌++◌, not, nat_lt, length, filter, IfOk, OnOk, [], ◌∷◌};
ghost use Rattle.file_content.specs.Pages.{has_page, with_page, with_pages, pages_needed, pages_within};

use crate::pages::pages_of;
use locus_ids::{ItemList, NoMemory};
use std::alloc::Global;

/// The changed pages, and these as well. Each stands once.
pub fn with_pages(
    alloc: Global,
    pages: &[usize],
    changed: &[usize],
) -> Result<ItemList<usize>, NoMemory>
    ensures { IfOk result (λ made. made ≡ with_pages pages.now changed.now) }
{
    let mut made = copied(alloc, changed)?;
    for page in pages {
        add_page(&mut made, *page)?;
    }
    Ok(made)
}

/// Those of the changed pages that begin before the end of a content of this size.
pub fn pages_within(
    alloc: Global,
    size: usize,
    changed: &[usize],
) -> Result<ItemList<usize>, NoMemory>
    ensures { IfOk result (λ made. made ≡ pages_within size changed.now) }
{
    let end = pages_of(size);
    let mut made = ItemList::new(alloc);
    for page in changed {
        if *page < end {
            made.push(*page)?;
        }
    }
    Ok(made)
}

/// How many of the pages were not changed before.
pub fn pages_needed(pages: &[usize], changed: &[usize]) -> usize
    ensures { result ≡ pages_needed pages.now changed.now }
{
    let mut needed = 0;
    for page in pages {
        if !has_page(changed, *page) {
            needed += 1;
        }
    }
    needed
}

fn has_page(changed: &[usize], page: usize) -> bool
    ensures { result ≡ has_page changed.now page }
{
    changed.contains(&page)
}

fn add_page(changed: &mut ItemList<usize>, page: usize) -> Result<(), NoMemory>
    ensures { OnOk result (changed.new ≡ with_page page changed.old) }
{
    if has_page(changed.as_slice(), page) {
        return Ok(());
    }
    changed.push(page)
}

fn copied(alloc: Global, pages: &[usize]) -> Result<ItemList<usize>, NoMemory>
    ensures { IfOk result (λ made. made ≡ pages.now) }
{
    let mut made = ItemList::new(alloc);
    for page in pages {
        made.push(*page)?;
    }
    Ok(made)
}
