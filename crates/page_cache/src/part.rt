ghost use Rattle.std.specs.Prelude.{◌≡◌, ◌≤◌, ◌++◌, length, take, drop};
ghost use Rattle.locus_ids.specs.Sizes.{page_bytes};
ghost use Rattle.page_cache.specs.Parts.{bytes_within, first_page, is_whole, name_in, page_among, page_end, part_length};

use crate::page_name::PageName;
use locus_ids::sizes::PAGE_BYTES;
use locus_ids::{FileId, Stamp};

const PAGE: u64 = PAGE_BYTES as u64;

/// So many bytes of a version from a place on, as far as the version goes.
#[derive(Clone, Copy, PartialEq, Eq, Drop)]
pub struct Part {
    pub file: FileId,
    pub stamp: Stamp,
    /// The bytes of the version.
    pub size: u32,
    pub at: u32,
    pub len: u16,
}

impl Part {
    /// How many bytes it has.
    pub fn length(&self) -> u32
        ensures { result ≡ part_length self.now }
    {
        u32::from(self.len).min(self.size.saturating_sub(self.at))
    }

    /// The first page that it touches, and the one behind the last that so many bytes from its place on touch.
    pub(crate) fn pages(&self, count: u32) -> (u32, u32)
        ensures first { result.0 ≡ first_page self.now }
        ensures end { result.1 ≡ page_end self.now count }
        ensures order { result.0 ≤ result.1 }
    {
        let first = u64::from(self.at) / PAGE;
        if count == 0 {
            return (first as u32, first as u32);
        }
        let end = u64::from(self.at) + u64::from(count);
        (first as u32, end.div_ceil(PAGE) as u32)
    }

    /// A page of its version.
    pub(crate) fn name(&self, page: u32) -> PageName
        ensures { result ≡ name_in self.now page }
    {
        PageName {
            file: self.file,
            stamp: self.stamp,
            page,
        }
    }

    /// Those of its bytes that a page has.
    pub(crate) fn within<'a>(&self, page: u32, bytes: &'a [u8; PAGE_BYTES]) -> &'a [u8]
        ensures { result.now ≡ bytes_within self.now page bytes.now }
    {
        let start = PAGE * u64::from(page);
        let end = u64::from(self.at) + u64::from(self.length());
        let stop = end.saturating_sub(start).min(PAGE) as usize;
        let from = u64::from(self.at).saturating_sub(start).min(PAGE) as usize;
        if from < stop {
            return &bytes[from..stop];
        }
        &[]
    }

    /// These bytes, which begin at its place, bring the page whole.
    pub(crate) fn is_whole(&self, bytes: &[u8], page: u32) -> bool
        ensures { result ≡ is_whole self.now (length bytes.now) page }
    {
        let start = PAGE * u64::from(page);
        let end = (start + PAGE).min(u64::from(self.size));
        u64::from(self.at) <= start && end <= u64::from(self.at) + bytes.len() as u64
    }

    /// A page out of the bytes from the place of the part on, with zeros behind them.
    #[tactic(auto, using(crate::proofs::Paging::zeros_behind))]
    pub(crate) fn page_among(&self, bytes: &[u8], page: u32) -> [u8; PAGE_BYTES]
        ensures { result ≡ page_among self.now bytes.now page }
    {
        let start = (PAGE * u64::from(page)).saturating_sub(u64::from(self.at));
        let mut made = [0; PAGE_BYTES];
        overwrite(&mut made, part_from(bytes, start as usize, PAGE_BYTES));
        made
    }
}

/// So many bytes from a place on, or all where there are no more.
fn part_from(bytes: &[u8], start: usize, len: usize) -> &[u8]
    ensures value { result.now ≡ take len (drop start bytes.now) }
    ensures few { length result.now ≤ len }
{
    let Some(rest) = bytes.get(start..) else {
        return &[];
    };
    let len = len.min(rest.len());
    &rest[..len]
}

/// Writes these bytes over the first ones.
fn overwrite(page: &mut [u8], bytes: &[u8])
    requires { length bytes.now ≤ length page.old }
    ensures { page.new ≡ bytes.now ++ drop (length bytes.now) page.old }
{
    page[..bytes.len()].copy_from_slice(bytes);
}
