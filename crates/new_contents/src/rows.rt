// Pages of a content in a row.
ghost use Rattle.std.specs.Prelude.{◌≡◌, ◌≤◌};
ghost use Rattle.locus_ids.specs.Sizes.{content_bytes_max, content_pages_max};
ghost use Rattle.file_content.specs.Pages.{pages_of};

use locus_ids::sizes::PAGE_BYTES;

/// Pages in a row: those from `first` up to `stop`.
#[derive(Clone, Copy)]
pub struct Row {
    pub first: u16,
    pub stop: u16,
}

/// The number of pages of a content.
pub fn page_count(size: u32) -> u16
    requires { size ≤ content_bytes_max }
    ensures pages { result ≡ pages_of size }
    ensures most { result ≤ content_pages_max }
{
    ((size + (PAGE_BYTES as u32 - 1)) / PAGE_BYTES as u32) as u16
}
