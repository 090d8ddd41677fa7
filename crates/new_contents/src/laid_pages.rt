// Pages of a version that are laid over the one before it.
ghost use Rattle.std.specs.Prelude.{◌≡◌, ◌≤◌, ◌+◌, length, Some, None, IfSome, IfNone};
ghost use Rattle.locus_ids.specs.Sizes.{content_pages_max, page_bytes};
ghost use Rattle.file_content.specs.Pages.{page_of};
ghost use Rattle.shadow_pages.specs.Working.{page_at as shadow_page, padded, count_below};
ghost use Rattle.new_contents.specs.Laid.{has_come, place_from, working_of};

use crate::new_content::NewContent;
use crate::page_writing::put_padded;
use crate::rows::{Row, page_count};
use disk_model::{Disk, DiskFault};
use file_content::{page_of, pages_of};

/// Some pages of a version: its size in bytes, their numbers, ascending, and their bytes in this order. Its other pages are those of
/// the copy over which they are laid.
#[derive(Clone, Copy)]
pub struct LaidPages<'a> {
    pub size: u32,
    pub numbers: &'a [u16],
    pub bytes: &'a [u8],
}

impl NewContent for LaidPages<'_> {
    ghost working = { working_of };

    fn size(&self) -> u32 {
        self.size
    }

    fn row(&self) -> Row {
        Row {
            first: 0,
            stop: page_count(self.size),
        }
    }

    fn count(&self, row: Row) -> u16 {
        count_come(self.numbers, row)
    }

    fn is_changed(&self, i: u16) -> bool {
        page_that_came(self, i).is_some()
    }

    fn put_page<D: Disk>(&self, disk: &mut D, at: u32, i: u16) -> Result<(), DiskFault> {
        match page_that_came(self, i) {
            Some(page) => put_padded(disk, at, page),
            None => Ok(()),
        }
    }
}

/// How many pages in a row have come.
fn count_come(numbers: &[u16], row: Row) -> u16
    requires ordered { row.first ≤ row.stop }
    requires inside { row.stop ≤ content_pages_max }
    ensures number { count_below (has_come numbers.now) row.first + result ≡ count_below (has_come numbers.now) row.stop }
    ensures most { result ≤ content_pages_max }
{
    let mut count = 0;
    for i in row.first..row.stop {
        if has_come(numbers, i) {
            count += 1;
        }
    }
    count
}

/// The bytes of a page of the version, if it came.
fn page_that_came<'a>(came: &LaidPages<'a>, i: u16) -> Option<&'a [u8]>
    ensures some { IfSome result (λ page. shadow_page (working_of came.now).pages i ≡ Some (padded page_bytes page.now)) }
    ensures short { IfSome result (λ page. length page.now ≤ page_bytes) }
    ensures none { IfNone result (shadow_page (working_of came.now).pages i ≡ None) }
{
    if usize::from(i) >= pages_of(came.size as usize) {
        return None;
    }
    match place_of(came.numbers, i) {
        Some(place) => Some(page_at(came.bytes, place)),
        None => None,
    }
}

/// The bytes of the page that came at a place, none where there are none.
fn page_at(bytes: &[u8], place: usize) -> &[u8]
    ensures page { result.now ≡ page_of bytes.now place }
    ensures short { length result.now ≤ page_bytes }
{
    if place >= pages_of(bytes.len()) {
        return &[];
    }
    page_of(bytes, place)
}

/// The page is among these.
fn has_come(numbers: &[u16], page: u16) -> bool
    ensures { result ≡ has_come numbers.now page }
{
    place_of(numbers, page).is_some()
}

/// At which place among these numbers one stands.
fn place_of(numbers: &[u16], page: u16) -> Option<usize>
    ensures { result ≡ place_from 0 numbers.now page }
{
    for i in 0..numbers.len() {
        if numbers[i] == page {
            return Some(i);
        }
    }
    None
}
