ghost use Rattle.std.specs.Prelude.{◌≡◌, ℕ, ◌+◌, ◌*◌, ◌≤◌, ◌<◌, ◌↔◌, ◌&&◌, ◌||◌, min, max, length, take, List, [], IfOk, OnOk, OnErr, IfSome, MatchOption, None, Some, Err, is_some, is_none, nat_lt, slice_index};
ghost use Rattle.locus_ids.specs.Sizes.{page_bytes};
ghost use Rattle.file_content.specs.Contents.{written};
ghost use Rattle.shadow_pages.specs.Working.{Working, page_at, content, touches, needed, number_changed, AreAmong, IsZeroFrom, count_below};
ghost use Rattle.shadow_pages.specs.Pages.{AreOf, Hands};
ghost use Rattle.shadow_pages.specs.declared.shadow.ShadowFault.TheVariants.{NoSpace};

use crate::base_page::PageList;
use crate::build::{Writing, build};
use crate::page::Page;
use crate::place::{count_changed, cut_pages, grow, is_unchanged, place};
use crate::span::{Span, joined, pages_of, span_between};
use locus_ids::NoMemory;
use std::alloc::Global;
use std::marker::Model;
use thiserror::Error;

/// Why a write wasn't made.
#[derive(Clone, Copy, Debug, PartialEq, Eq, Error)]
pub enum ShadowFault {
    /// It changes `needed` pages that weren't changed before, and `free` are free.
    #[error("{needed} pages are needed and {free} are free")]
    NoSpace { needed: u16, free: u16 },
    #[error("no memory")]
    NoMemory,
}

impl From<NoMemory> for ShadowFault {
    ghost use Rattle.shadow_pages.specs.declared.shadow.ShadowFault.TheVariants.{NoMemory};

    ghost from_gives = { λ _ fault. fault ≡ NoMemory };

    fn from(_: NoMemory) -> ShadowFault {
        ShadowFault::NoMemory
    }
}

/// The working content of a file over its base, of at most 1,110,016 bytes. Contracts see its size and its changed pages.
#[derive(Drop)]
pub struct Shadow {
    size: u32,
    count: u16,
    /// Pages in a row, among which all changed ones are.
    hull: Span,
    pages: Vec<Option<Page>>,
}

impl Model for Shadow {
    ghost use Rattle.std.specs.Prelude.{◌≡◌, ◌≤◌, length};
    ghost use Rattle.file_content.specs.Pages.{pages_of};
    ghost use Rattle.shadow_pages.specs.Working.{Working, AreAmong, IsClean, number_changed};

    ghost Value = { Working };

    ghost view = { λ s. record { size = s.size; pages = s.pages.items } };

    ghost invariant = { λ s. (s.size ≤ 1110016) × (length s.pages.items ≤ pages_of s.size) × (s.count ≡ number_changed s.pages.items) × IsClean (record { size = s.size; pages = s.pages.items }) × AreAmong s.hull.first s.hull.stop s.pages.items };
}

impl Shadow {
    /// A content of so many bytes, none of its pages changed.
    pub fn new(alloc: Global, size: u32) -> Result<Shadow, NoMemory>
        requires { size ≤ 1110016 }
        ensures { IfOk result (λ s. s ≡ record { size = size; pages = [] }) }
    {
        let pages = Vec::with_capacity(alloc, pages_of(size) as usize)?;
        Ok(Shadow {
            size,
            count: 0,
            hull: Span { first: 0, stop: 0 },
            pages,
        })
    }

    /// The size of the content in bytes.
    pub fn size(&self) -> u32
        ensures value { result ≡ self.now.size }
        ensures small { result ≤ 1110016 }
    {
        self.size
    }

    /// The number of changed pages. All of them are among the first pages, those that hold the content.
    pub fn changed(&self) -> u16
        ensures number { result ≡ number_changed self.now.pages }
        ensures first { (n : ℕ) → self.now.size ≤ page_bytes * n → result ≡ count_below (λ i. is_some (page_at self.now.pages i)) n }
    {
        self.count
    }

    /// Pages in a row, among which all changed ones are: few where a few pages beside each other were changed.
    pub fn hull(&self) -> Span
        ensures { AreAmong result.first result.stop self.now.pages }
    {
        self.hull
    }

    /// The bytes of a page, or `None` exactly where it is unchanged.
    pub fn page(&self, i: u16) -> Option<&[u8]>
        ensures value { MatchOption result (page_at self.now.pages i ≡ None) (λ page. page_at self.now.pages i ≡ Some page.now) }
        ensures full { IfSome result (λ page. length page.now ≡ page_bytes) }
        ensures zeros { IfSome result (λ page. IsZeroFrom self.now.size i page.now) }
    {
        if (i as usize) < self.pages.len() {
            if let Some(page) = &self.pages[i as usize] {
                return Some(page.bytes());
            }
        }
        None
    }

    /// How many pages a write of `len` bytes changes that weren't changed before.
    pub fn needed(&self, at: u32, len: u32) -> u16
        requires { at + len ≤ 1110016 }
        ensures { result ≡ needed self.now at len }
    {
        let span = span_between(at.min(self.size), at + len);
        count_unchanged(&self.pages, span)
    }

    /// Writes the bytes at a place; a gap before it is filled with zeros. `base` has each unchanged page of the content that
    /// this changes. With an `Err` nothing is changed.
    pub fn write(
        &mut self,
        at: u32,
        bytes: &[u8],
        base: &PageList,
        free: u16,
    ) -> Result<(), ShadowFault>
        requires end { at + length bytes.now ≤ 1110016 }
        requires handed { Hands self.old at (length bytes.now) base.now }

        ensures content { OnOk result ((old : List ℕ) → AreOf old self.old.size base.now → content old self.new ≡ written (content old self.old) at bytes.now) }
        ensures size { OnOk result (self.new.size ≡ max self.old.size (at + length bytes.now)) }
        ensures pages { OnOk result ((i : ℕ) → is_some (page_at self.new.pages i) ≡ (is_some (page_at self.old.pages i) || touches self.old at (length bytes.now) i)) }
        ensures changed { OnOk result (number_changed self.new.pages ≡ number_changed self.old.pages + needed self.old at (length bytes.now)) }
        ensures room { OnOk result (needed self.old at (length bytes.now) ≤ free) }

        ensures no_space { (n f : ℕ) → result ≡ Err (NoSpace n f) ↔ ((free < n) × (n ≡ needed self.old at (length bytes.now)) × (f ≡ free)) }
        ensures err { OnErr result (self.new ≡ self.old) }
    {
        let needed = self.needed(at, bytes.len() as u32);
        if needed > free {
            return Err(ShadowFault::NoSpace { needed, free });
        }
        let end = at + bytes.len() as u32;
        let span = span_between(at.min(self.size), end);
        let writing = Writing {
            size: self.size,
            at,
            bytes,
        };
        let made = build(
            *self.pages.allocator(),
            &self.pages,
            base.as_slice(),
            &writing,
            span,
        )?;
        grow(&mut self.pages, span.stop as usize)?;
        place(&mut self.pages, span.first as usize, made);
        self.count += needed;
        self.hull = joined(self.hull, span);
        self.size = self.size.max(end);
        Ok(())
    }

    /// Cuts the content to `len` bytes where it has more. Pages past the end are no longer changed.
    pub fn cut(&mut self, len: u32)
        ensures content { (old : List ℕ) → content old self.new ≡ take len (content old self.old) }
        ensures size { self.new.size ≡ min len self.old.size }
        ensures pages { (i : ℕ) → is_some (page_at self.new.pages i) ≡ (is_some (page_at self.old.pages i) && nat_lt (page_bytes * i) len) }
    {
        if len >= self.size {
            return;
        }
        cut_pages(&mut self.pages, len);
        self.count = count_changed(&self.pages);
        self.size = len;
    }

    /// Begins anew with a base of so many bytes: no page is changed any more.
    pub fn drop_all(&mut self, size: u32)
        requires { size ≤ 1110016 }
        ensures { self.new ≡ record { size = size; pages = [] } }
    {
        self.pages.clear();
        self.count = 0;
        self.hull = Span { first: 0, stop: 0 };
        self.size = size;
    }
}

/// How many pages of a span are unchanged.
fn count_unchanged(pages: &[Option<Page>], span: Span) -> u16
    requires first { span.first ≤ span.stop }
    requires stop { span.stop ≤ 1084 }
    ensures { result + count_below (λ i. is_none (page_at pages.now i)) span.first ≡ count_below (λ i. is_none (page_at pages.now i)) span.stop }
{
    let mut count = 0;
    for i in span.first..span.stop {
        if is_unchanged(pages, i as usize) {
            count += 1;
        }
    }
    count
}
