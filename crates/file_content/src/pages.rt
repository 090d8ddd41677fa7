ghost use Rattle.std.specs.Prelude.{◌≡◌, ◌≤◌, ◌+◌, ◌-◌, ◌*◌, ◌/◌, ◌++◌, min, not, nat_lt, length, filter, IfOk, OnOk, [], ◌∷◌};
ghost use Rattle.file_content.specs.Pages.{is_replaced, page_of, pages_between, pages_from, pages_of, pages_replaced, pages_written};

use crate::reading::part_from;
use locus_ids::sizes::PAGE_BYTES;
use locus_ids::{ItemList, NoMemory};
use std::alloc::Global;

/// How many pages so many bytes take.
pub fn pages_of(size: usize) -> usize
    ensures { result ≡ pages_of size }
{
    size.div_ceil(PAGE_BYTES)
}

/// The bytes of a page of a content, and none of the page past its end.
pub fn page_of(content: &[u8], page: usize) -> &[u8]
    requires { page ≤ pages_of (length content.now) }
    ensures { result.now ≡ page_of content.now page }
{
    part_from(content, PAGE_BYTES * page, PAGE_BYTES)
}

/// The pages that a write to a content changes: those from its place, or from the end of the content where that is less,
/// up to the end of the write.
#[tactic(auto, using(crate::proofs::Paging::next_page, crate::proofs::Paging::no_page, crate::proofs::Paging::put_before))]
pub fn pages_written(
    alloc: Global,
    content: &[u8],
    at: u32,
    bytes: &[u8],
) -> Result<ItemList<usize>, NoMemory>
    ensures { IfOk result (λ made. made ≡ pages_written content.now at bytes.now) }
{
    let (first, end) = span(content, at, bytes);
    let mut made = ItemList::new(alloc);
    for page in first..end {
        made.push(page)?;
    }
    Ok(made)
}

/// The first page that a write changes, and the one after the last.
fn span(content: &[u8], at: u32, bytes: &[u8]) -> (usize, usize)
    ensures order { result.0 ≤ result.1 }
    ensures pages { pages_written content.now at bytes.now ≡ pages_from result.0 (result.1 - result.0) }
{
    let at = at as usize;
    let from = at.min(content.len());
    let end = at + bytes.len();
    if from < end {
        return (from / PAGE_BYTES, pages_of(end));
    }
    (0, 0)
}

/// The pages of a new content that are new, or other than the old content has them.
#[tactic(auto, using(crate::proofs::Paging::next_page, crate::proofs::Paging::no_page, crate::proofs::Paging::put_before))]
pub fn pages_replaced(alloc: Global, old: &[u8], new: &[u8]) -> Result<ItemList<usize>, NoMemory>
    ensures { IfOk result (λ made. made ≡ pages_replaced old.now new.now) }
{
    let mut made = ItemList::new(alloc);
    for page in 0..pages_of(new.len()) {
        if is_replaced(old, new, page) {
            made.push(page)?;
        }
    }
    Ok(made)
}

/// The page with this number isn't what it was.
fn is_replaced(old: &[u8], new: &[u8], page: usize) -> bool
    requires { page ≤ pages_of (length new.now) }
    ensures { result ≡ is_replaced old.now new.now page }
{
    let from = PAGE_BYTES * page;
    part_from(new, from, PAGE_BYTES) != part_from(old, from, PAGE_BYTES)
}
