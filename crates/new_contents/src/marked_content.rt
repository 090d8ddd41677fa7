// A content some pages of which are marked as new.
ghost use Rattle.std.specs.Prelude.{◌≡◌, ◌≤◌, ◌<◌, ◌+◌, ◌*◌, ℕ, length, true, false};
ghost use Rattle.locus_ids.specs.Sizes.{page_bytes, content_pages_max};
ghost use Rattle.shadow_pages.specs.Working.{count_below};
ghost use Rattle.new_contents.specs.Changed.{is_changed};
ghost use Rattle.new_contents.specs.Marked.{is_marked, marked};

use crate::new_content::NewContent;
use crate::page_writing::put_padded;
use crate::rows::{Row, page_count};
use disk_model::{Disk, DiskFault};
use file_content::page_of;
use locus_ids::sizes::{CONTENT_PAGES, PAGE_BYTES};

/// A content, and which of its pages are new.
#[derive(Clone, Copy)]
pub struct MarkedContent<'a> {
    pub content: &'a [u8],
    pub marks: &'a [bool; CONTENT_PAGES],
}

impl NewContent for MarkedContent<'_> {
    ghost working = { λ m. marked m.content.now m.marks.now };

    fn size(&self) -> u32 {
        self.content.len() as u32
    }

    fn row(&self) -> Row {
        let end = page_count(self.content.len() as u32);
        let first = first_marked(self.marks, end);
        let stop = end_of_marked(self.marks, first, end);
        Row { first, stop }
    }

    fn count(&self, row: Row) -> u16 {
        count_marked(self.marks, row)
    }

    fn is_changed(&self, i: u16) -> bool {
        is_new_page(self.content, self.marks, i)
    }

    fn put_page<D: Disk>(&self, disk: &mut D, at: u32, i: u16) -> Result<(), DiskFault> {
        if !is_new_page(self.content, self.marks, i) {
            return Ok(());
        }
        put_padded(disk, at, page_of(self.content, usize::from(i)))
    }
}

/// The first marked page below `end`, or `end`.
fn first_marked(marks: &[bool; CONTENT_PAGES], end: u16) -> u16
    requires { end ≤ content_pages_max }
    ensures most { result ≤ end }
    ensures before { (i : ℕ) → i < result → is_marked marks.now i ≡ false }
{
    for i in 0..end {
        if marks[usize::from(i)] {
            return i;
        }
    }
    end
}

/// Where the marked pages from `first` on and below `end` end.
fn end_of_marked(marks: &[bool; CONTENT_PAGES], first: u16, end: u16) -> u16
    requires ordered { first ≤ end }
    requires inside { end ≤ content_pages_max }
    ensures low { first ≤ result }
    ensures high { result ≤ end }
    ensures behind { (i : ℕ) → result ≤ i → i < end → is_marked marks.now i ≡ false }
{
    for i in first..end {
        let stop = first + end - i;
        if marks[usize::from(stop) - 1] {
            return stop;
        }
    }
    first
}

/// How many pages in a row are marked.
fn count_marked(marks: &[bool; CONTENT_PAGES], row: Row) -> u16
    requires ordered { row.first ≤ row.stop }
    requires inside { row.stop ≤ content_pages_max }
    ensures number { count_below (is_marked marks.now) row.first + result ≡ count_below (is_marked marks.now) row.stop }
    ensures most { result ≤ content_pages_max }
{
    let mut count = 0;
    for i in row.first..row.stop {
        if marks[usize::from(i)] {
            count += 1;
        }
    }
    count
}

/// A page is one of the content, and marked.
fn is_new_page(content: &[u8], marks: &[bool; CONTENT_PAGES], i: u16) -> bool
    ensures changed { result ≡ is_changed (marked content.now marks.now) i }
    ensures inside { result ≡ true → page_bytes * i < length content.now }
{
    let at = usize::from(i);
    if PAGE_BYTES * at >= content.len() {
        return false;
    }
    if at >= CONTENT_PAGES {
        return false;
    }
    marks[at]
}
