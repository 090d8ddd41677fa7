// Whether pages that came may be laid over the copy so far.
ghost use Rattle.std.specs.Prelude.{◌≡◌, ◌↔◌, ◌≤◌, ◌<◌, ◌^◌, true, false, length, IfSome, IfNone};
ghost use Rattle.locus_ids.specs.Sizes.{content_bytes_max, content_pages_max, pack_pages};
ghost use Rattle.file_content.specs.Pages.{pages_of};
ghost use Rattle.stored_versions.specs.Changes.{ArePages};
ghost use Rattle.new_contents.specs.Marked.{is_marked};
ghost use Rattle.role_steps.specs.Pulling.{bytes_in};
ghost use Rattle.page_marks.specs.Laying.{AreLaid, ArePagesOf, AreRising, KeepsLength};
ghost use Rattle.page_marks.specs.Marking.{AreMarks};

use locus_ids::sizes::{CONTENT_PAGES, PAGE_BYTES};
use new_contents::LaidPages;

/// The marks of the pages that came, or `None` exactly where they may not be laid over a copy of so many bytes.
pub fn laid_marks(came: &LaidPages<'_>, own: usize) -> Option<[bool; CONTENT_PAGES]>
    requires size { came.now.size ≤ content_bytes_max }
    requires most { length came.now.numbers.now ≤ pack_pages }
    ensures marks { IfSome result (λ marks. AreMarks (pages_of came.now.size) came.now.numbers.now marks) }
    ensures fit { IfSome result (λ marks. AreLaid own came.now) }
    ensures none { IfNone result (AreLaid own came.now → ⊥) }
{
    let size = came.size as usize;
    let count = size.div_ceil(PAGE_BYTES);
    if !are_rising(came.numbers, count) {
        return None;
    }
    if !are_pages_of(came) {
        return None;
    }
    let marks = marks_of_numbers(came.numbers, count);
    if !keeps_length(own, size, &marks) {
        return None;
    }
    Some(marks)
}

/// These are numbers of pages of so many, each above the one before it.
fn are_rising(numbers: &[u16], count: usize) -> bool
    ensures { (result ≡ true) ↔ AreRising count numbers.now }
{
    let mut least = 0;
    for i in 0..numbers.len() {
        let page = usize::from(numbers[i]);
        if page < least {
            return false;
        }
        if page >= count {
            return false;
        }
        least = page + 1;
    }
    true
}

/// The marks of the pages that came.
fn marks_of_numbers(numbers: &[u16], count: usize) -> [bool; CONTENT_PAGES]
    requires few { count ≤ content_pages_max }
    requires pages { ArePages count numbers.now }
    ensures { AreMarks count numbers.now result }
{
    let mut marks = [false; CONTENT_PAGES];
    for i in 0..numbers.len() {
        let page = usize::from(numbers[i]);
        marks[page] = true;
    }
    marks
}

/// The bytes that a version of this size has in a page.
fn bytes_in(size: usize, page: usize) -> usize
    requires { page < 2 ^ 16 }
    ensures { result ≡ bytes_in size page }
{
    PAGE_BYTES.min(size.saturating_sub(PAGE_BYTES * page))
}

/// Of each page that came there are the bytes that the version has in it.
fn are_pages_of(came: &LaidPages<'_>) -> bool
    requires { length came.now.numbers.now ≤ pack_pages }
    ensures { (result ≡ true) ↔ ArePagesOf came.now.size came.now.numbers.now came.now.bytes.now }
{
    for place in 0..came.numbers.len() {
        let has = bytes_in(came.bytes.len(), place);
        if has != bytes_in(came.size as usize, usize::from(came.numbers[place])) {
            return false;
        }
    }
    true
}

/// A copy of so many bytes has all bytes of the version in each page that isn't marked.
fn keeps_length(own: usize, size: usize, marks: &[bool; CONTENT_PAGES]) -> bool
    requires { size ≤ content_bytes_max }
    ensures { (result ≡ true) ↔ KeepsLength own size marks.now }
{
    for page in 0..size.div_ceil(PAGE_BYTES) {
        if !has_bytes(own, size, marks, page) {
            return false;
        }
    }
    true
}

/// A page is marked, or a copy of so many bytes has all bytes of the version in it.
fn has_bytes(own: usize, size: usize, marks: &[bool; CONTENT_PAGES], page: usize) -> bool
    requires { page < content_pages_max }
    ensures { (result ≡ true) ↔ (is_marked marks.now page ≡ false → bytes_in size page ≤ bytes_in own page) }
{
    if marks[page] {
        return true;
    }
    bytes_in(size, page) <= bytes_in(own, page)
}
