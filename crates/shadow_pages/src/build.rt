ghost use Rattle.std.specs.Prelude.{◌≡◌, ℕ, ◌+◌, ◌-◌, ◌*◌, ◌≤◌, ◌<◌, length, List, IfOk, IfSome, None, Some, slice_index, slice_index_or, [], Option, IsTrue};
ghost use Rattle.std.specs.Option.{unwrap_or};
ghost use denote.Ref.{Bor};
ghost use Rattle.std.specs.Option.{option_map};
ghost use Rattle.shadow_pages.specs.Working.{Working, page_at, touches, spliced, IsPageAfter};
ghost use Rattle.shadow_pages.specs.Pages.{AreOf, Hands, AreWritten, Finds};
ghost use Rattle.shadow_pages.specs.declared.base_page.BasePage.{BasePage};

use crate::base_page::BasePage;
use crate::page::Page;
use crate::span::Span;
use locus_ids::NoMemory;
use locus_ids::sizes::PAGE_BYTES;
use std::alloc::Global;

/// What a write does: its place, its bytes, and the size of the content before it.
#[derive(Clone, Copy)]
pub struct Writing<'a> {
    pub size: u32,
    pub at: u32,
    pub bytes: &'a [u8],
}

/// Overwrites bytes from a place on.
fn put(page: &mut [u8], at: usize, bytes: &[u8])
    requires { at + length bytes.now ≤ length page.old }
    ensures { page.new ≡ spliced at bytes.now page.old }
{
    let end = at + bytes.len();
    page[at..end].copy_from_slice(bytes);
}

/// A page as a write leaves it.
pub fn page_after(w: &Writing, i: u32, before: &[u8]) -> [u8; PAGE_BYTES]
    requires place { i < 1084 }
    requires end { w.now.at + length w.now.bytes.now ≤ 1110016 }
    requires size { w.now.size ≤ 1110016 }
    ensures { IsPageAfter result i w.now.size w.now.at w.now.bytes.now before.now }
{
    let mut page = [0; PAGE_BYTES];
    let start = PAGE_BYTES as u32 * i;
    let old = w.size.saturating_sub(start).min(PAGE_BYTES as u32) as usize;
    let kept = old.min(before.len());
    put(&mut page, 0, &before[..kept]);
    let end = w.at + w.bytes.len() as u32;
    let from = w.at.max(start);
    let to = end.min(start + PAGE_BYTES as u32);
    if from < to {
        let part = &w.bytes[(from - w.at) as usize..(to - w.at) as usize];
        put(&mut page, (from - start) as usize, part);
    }
    page
}

/// The bytes of a page that is among those handed.
pub fn find(handed: &[BasePage], i: u32) -> Option<&[u8]>
    ensures { Finds handed.now i result }
{
    for page in handed {
        if page.page as u32 == i {
            return Some(page.bytes.as_slice());
        }
    }
    None
}

/// The bytes of a page before a write: those in memory where it was changed, else those handed, else none.
fn before<'p>(pages: &'p [Option<Page>], handed: &'p [BasePage], i: u32) -> &'p [u8]
    ensures changed { (page : List ℕ) → page_at pages.now i ≡ Some page → result.now ≡ page }
    ensures unchanged { page_at pages.now i ≡ None → (found : Option (Bor (List ℕ))) × Finds handed.now i found × (unwrap_or (option_map (λ b. b.now) found) [] ≡ result.now) }
{
    if (i as usize) < pages.len() {
        if let Some(page) = &pages[i as usize] {
            return page.bytes();
        }
    }
    match find(handed, i) {
        Some(bytes) => bytes,
        None => &[],
    }
}

/// The pages of a span as a write leaves them.
pub fn build(
    alloc: Global,
    pages: &[Option<Page>],
    handed: &[BasePage],
    w: &Writing,
    span: Span,
) -> Result<Vec<Page>, NoMemory>
    requires ordered { span.first ≤ span.stop }
    requires within { span.stop ≤ 1084 }
    requires end { w.now.at + length w.now.bytes.now ≤ 1110016 }
    requires size { w.now.size ≤ 1110016 }
    requires touched { (i : ℕ) → span.first ≤ i → i < span.stop → IsTrue (touches (record { size = w.now.size; pages = pages.now }) w.now.at (length w.now.bytes.now) i) }
    requires handed { Hands (record { size = w.now.size; pages = pages.now }) w.now.at (length w.now.bytes.now) handed.now }
    ensures len { IfOk result (λ made. length made.items ≡ span.stop - span.first) }
    ensures made { IfOk result (λ made. AreWritten (record { size = w.now.size; pages = pages.now }) w.now.at w.now.bytes.now handed.now span.first made.items) }
{
    let mut made = Vec::new(alloc);
    for i in span.first..span.stop {
        let page = page_after(w, i, before(pages, handed, i));
        made.push(Page::new(alloc, &page)?)?;
    }
    Ok(made)
}
