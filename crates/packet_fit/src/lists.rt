ghost use Rattle.std.specs.Prelude.{◌↔◌, ◌≤◌, ◌+◌, nat_le, IsTrue, Some, None};
ghost use Rattle.field_codec.specs.Codec.{u16, within};
ghost use Rattle.field_codec.specs.Lists.{AllFit};
ghost use Rattle.wire_fields.specs.Parts.{stamps_after, ascending_stamps};
ghost use Rattle.wire_messages.specs.Answers.{copies_from, reported_copies};
ghost use Rattle.wire_messages.specs.Bodies.{page_numbers};

use crate::answers::is_copy_from;
use locus_ids::sizes::{INODES, SITES};
use locus_ids::{Stamp, Stamps};
use wire_messages::{PageNumbers, ReportedCopies, ReportedCopy};

/// Copies whose inodes ascend from this one on.
fn are_copies_from(least: u16, copies: &[ReportedCopy]) -> bool
    ensures { IsTrue result ↔ AllFit copies_from (λ _ copy. copy.ino + 1) least copies.now }
{
    match copies {
        [] => true,
        [first, rest @ ..] => {
            is_copy_from(least, first)
                && first.ino <= INODES
                && are_copies_from(first.ino + 1, rest)
        }
    }
}

/// The copies of a group, their inodes ascending.
pub fn are_copies(copies: &ReportedCopies) -> bool
    ensures { IsTrue result ↔ reported_copies.Fits copies.now }
{
    copies.len() < 65_536 && are_copies_from(1, copies.as_slice())
}

/// Numbers of pages that ascend from this one on.
fn are_pages_from(least: u32, pages: &[u16]) -> bool
    ensures { IsTrue result ↔ AllFit (λ floor. within (λ page. nat_le floor page) u16) (λ _ page. page + 1) least pages.now }
{
    match pages {
        [] => true,
        [first, rest @ ..] => { least <= *first as u32 && are_pages_from(*first as u32 + 1, rest) }
    }
}

/// Numbers of pages, ascending.
pub fn are_page_numbers(pages: &PageNumbers) -> bool
    ensures { IsTrue result ↔ page_numbers.Fits pages.now }
{
    pages.len() < 65_536 && are_pages_from(0, pages.as_slice())
}

/// A stamp that may stand after the last one.
fn is_stamp_after(last: Option<Stamp>, stamp: Stamp) -> bool
    ensures { IsTrue result ↔ (stamps_after last).Fits stamp }
{
    if stamp.site > SITES as u8 || (stamp.site == 0) != (stamp.n == 0) {
        return false;
    }
    match last {
        None => true,
        Some(last) => last.site <= stamp.site && (last.site < stamp.site || last.n < stamp.n),
    }
}

fn are_stamps_after(last: Option<Stamp>, stamps: &[Stamp]) -> bool
    ensures { IsTrue result ↔ AllFit stamps_after (λ _ stamp. Some stamp) last stamps.now }
{
    match stamps {
        [] => true,
        [first, rest @ ..] => is_stamp_after(last, *first) && are_stamps_after(Some(*first), rest),
    }
}

/// Stamps that ascend.
pub fn are_ascending(stamps: &Stamps) -> bool
    ensures { IsTrue result ↔ ascending_stamps.Fits stamps.now }
{
    stamps.len() < 256 && are_stamps_after(None, stamps.as_slice())
}
