//! Numbers of pages and bytes, as packets have them.

ghost use Rattle.std.specs.Prelude.{◌≡◌, ◌≤◌, length, insert, IfOk, OnOk};
ghost use Rattle.file_content.specs.Pages.{ascending, placed};

use locus_ids::NoMemory;
use std::alloc::Global;
use wire_messages::PageNumbers;

/// The pages, ascending.
pub(crate) fn ascending_pages(alloc: Global, pages: &[usize]) -> Result<PageNumbers, NoMemory>
    ensures { IfOk result (λ list. list ≡ ascending pages.now) }
{
    let mut list = PageNumbers::new(alloc);
    let mut left = pages.len();
    while left > 0 {
        left -= 1;
        place(&mut list, pages[left])?;
    }
    Ok(list)
}

/// A page is put at its place.
fn place(list: &mut PageNumbers, page: usize) -> Result<(), NoMemory>
    ensures { OnOk result (list.new ≡ placed page list.old) }
{
    let number = short_number(page)?;
    let at = place_in(list.as_slice(), number);
    list.insert(at, number)?;
    Ok(())
}

/// How many of the numbers stand before this one.
fn place_in(pages: &[u16], page: u16) -> usize
    ensures inside { result ≤ length pages.now }
    ensures place { insert pages.now result page ≡ placed page pages.now }
{
    for at in 0..pages.len() {
        if page <= pages[at] {
            return at;
        }
    }
    pages.len()
}

/// A number in 16 bits. No content has a page, and no read gives so many bytes, that it would need more.
pub fn short_number(number: usize) -> Result<u16, NoMemory>
    ensures { IfOk result (λ made. made ≡ number) }
{
    if number > usize::from(u16::MAX) {
        return Err(NoMemory);
    }
    Ok(number as u16)
}
