ghost use Rattle.std.specs.Prelude.{◌≡◌, ◌<◌, ◌^◌, ◌-◌, ◌++◌, nat_lt, false, Option, Some, None, slice_index, OnOk, IfOk};
ghost use Rattle.std.specs.List.{list_all};
ghost use Rattle.file_content.specs.Pages.{has_page, pages_from};
ghost use Rattle.role_steps.specs.Pulling.{ascend_from, are_delta, bytes_in, is_awaited, is_complete, is_delta, next_asked, next_page, pages_got, pull_packets};
ghost use Rattle.wire_messages.specs.declared.body.Body.TheVariants as body;
ghost use Rattle.propagation.specs.Sized.{IsNew, IsSized, pull_over_head};

use crate::CopyHead;
use crate::own_copy::same_stamp;
use file_content::pages_of;
use locus_ids::sizes::PAGE_BYTES;
use locus_ids::{NoMemory, Stamp};
use role_steps::Pull;
use site_frame::SiteFrame;
use std::alloc::Global;
use wire_messages::{Body, Outbox, PageNumbers};

/// How many of the pages are there.
pub fn pages_got(pull: &Pull) -> usize
    ensures { result ≡ pages_got pull.now }
{
    pages_of(pull.content.len())
}

/// The holder has said which pages are to be pulled, and all of them are there.
pub fn is_complete(pull: &Pull) -> bool
    ensures { result ≡ is_complete pull.now }
{
    match &pull.wanted {
        Some(pages) => pages_got(pull) == pages.len(),
        None => false,
    }
}

/// The number of the next missing page; 0 while it isn't known which are to be pulled.
fn next_page(pull: &Pull) -> u16
    ensures { result ≡ next_page pull.now }
{
    match &pull.wanted {
        Some(pages) => number_at(pages.as_slice(), pages_got(pull)),
        None => 0,
    }
}

/// The number at a place; 0 where there is none.
#[tactic(auto, using(crate::proofs::Lists::past))]
fn number_at(pages: &[u16], place: usize) -> u16
    ensures { result ≡ slice_index pages.now place }
{
    if place < pages.len() {
        return pages[place];
    }
    0
}

/// The bytes that a version of this size has in a page.
fn bytes_in(size: usize, page: u16) -> usize
    ensures { result ≡ bytes_in size page }
{
    size.saturating_sub(PAGE_BYTES * usize::from(page))
        .min(PAGE_BYTES)
}

/// The page is the next missing one of the version that is pulled, with as many bytes as the version has in it.
pub fn is_awaited(pull: &Pull, stamp: Stamp, page: u8, bytes: &[u8]) -> bool
    ensures { result ≡ is_awaited pull.now stamp page bytes.now }
{
    let page = u16::from(page);
    same_stamp(pull.stamp, stamp)
        && pull.wanted.is_some()
        && !is_complete(pull)
        && page == next_page(pull)
        && bytes.len() == bytes_in(pull.size as usize, page)
}

/// Each number is above the one before it.
fn ascend_from(first: usize, pages: &[u16]) -> bool
    ensures { result ≡ ascend_from first pages.now }
{
    let mut least = first;
    for page in pages {
        if usize::from(*page) < least {
            return false;
        }
        least = usize::from(*page) + 1;
    }
    true
}

/// All of them are below this number.
fn are_below(count: usize, pages: &[u16]) -> bool
    ensures { result ≡ list_all (λ page. nat_lt page count) pages.now }
{
    pages.iter().all(|page| usize::from(*page) < count)
}

/// The page is one of these.
fn has_number(pages: &[u16], page: usize) -> bool
    ensures { result ≡ has_page pages.now page }
{
    pages.iter().any(|number| usize::from(*number) == page)
}

/// The pages of a version of so many that an own copy of so many doesn't have are among these.
#[tactic(auto, using(crate::proofs::Lists::all_on, crate::proofs::Lists::all_not, crate::proofs::Lists::all_out))]
fn have_new(own: usize, count: usize, pages: &[u16]) -> bool
    ensures { result ≡ list_all (has_page pages.now) (pages_from own (count - own)) }
{
    for page in own..count {
        if !has_number(pages, page) {
            return false;
        }
    }
    true
}

/// These are pages of a version of so many, and those that an own copy of so many doesn't have are among them.
fn are_delta(own: usize, count: usize, pages: &[u16]) -> bool
    ensures { result ≡ are_delta own count pages.now }
{
    ascend_from(0, pages) && are_below(count, pages) && have_new(own, count, pages)
}

/// The answer to the question which pages this pull is to bring.
pub fn is_delta(own: usize, pull: &Pull, stamp: Stamp, pages: &[u16]) -> bool
    ensures { result ≡ is_delta own pull.now stamp pages.now }
{
    same_stamp(pull.stamp, stamp)
        && pull.wanted.is_none()
        && are_delta(own, pages_of(pull.size as usize), pages)
}

/// Asks the holder which pages to pull, or for the next missing one, unless all are there.
pub fn send_next(frame: &SiteFrame, pull: &Pull, out: &mut Outbox) -> Result<(), NoMemory>
    requires { IsSized pull.now }
    ensures packets { OnOk result (out.new.packets ≡ out.old.packets ++ pull_packets frame.now pull.now) }
    ensures records { OnOk result (out.new.records ≡ out.old.records) }
{
    if is_complete(pull) {
        return Ok(());
    }
    out.send(frame.packet(pull.holder, next_asked(pull)))
}

/// What is asked of the holder next.
fn next_asked(pull: &Pull) -> Body
    requires sized { IsSized pull.now }
    requires missing { is_complete pull.now ≡ false }
    ensures { result ≡ next_asked pull.now pull.now.base pull.now.wanted }
{
    match pull.base {
        None => asked_page(pull),
        Some(own) => match &pull.wanted {
            None => Body::Want {
                file: pull.file,
                wanted: pull.stamp,
                own,
            },
            Some(_) => asked_page(pull),
        },
    }
}

#[tactic(auto, using(crate::proofs::Sizes::next_small))]
fn asked_page(pull: &Pull) -> Body
    requires sized { IsSized pull.now }
    requires missing { is_complete pull.now ≡ false }
    ensures { result ≡ body.Pull pull.now.file pull.now.stamp (next_page pull.now) }
{
    Body::Pull {
        file: pull.file,
        stamp: pull.stamp,
        page: next_page(pull) as u8,
    }
}

/// All pages of a version of so many.
#[tactic(auto, using(crate::proofs::Lists::next_from, crate::proofs::Lists::none_from, crate::proofs::Lists::put_before))]
fn all_pages(alloc: Global, count: usize) -> Result<PageNumbers, NoMemory>
    requires { count < 2 ^ 16 }
    ensures { IfOk result (λ pages. pages ≡ pages_from 0 count) }
{
    let mut pages = PageNumbers::new(alloc);
    for page in 0..count {
        pages.push(page as u16)?;
    }
    Ok(pages)
}

/// A list of these.
pub fn listed(alloc: Global, pages: &[u16]) -> Result<PageNumbers, NoMemory>
    ensures { IfOk result (λ list. list ≡ pages.now) }
{
    let mut list = PageNumbers::new(alloc);
    for page in pages {
        list.push(*page)?;
    }
    Ok(list)
}

/// The pull as it begins: of all pages where the site has no copy; over a copy the holder says which ones.
pub fn pull_over(own: &Option<CopyHead>, pull: Pull) -> Result<Pull, NoMemory>
    requires { IsNew pull }
    ensures begun { IfOk result (λ begun. begun ≡ pull_over_head own.now pull) }
    ensures sized { IfOk result (λ begun. IsSized begun) }
{
    match own {
        None => pull_all(pull),
        Some(copy) => Ok(pull_since(copy.stamp, pull)),
    }
}

#[tactic(auto, using(crate::proofs::Sizes::few_pages))]
fn pull_all(pull: Pull) -> Result<Pull, NoMemory>
    requires { IsNew pull }
    ensures begun { IfOk result (λ begun. begun ≡ pull_over_head None pull) }
    ensures sized { IfOk result (λ begun. IsSized begun) }
{
    let count = pages_of(pull.size as usize);
    let wanted = all_pages(pull.content.allocator(), count)?;
    let mut begun = pull;
    begun.base = None;
    begun.wanted = Some(wanted);
    Ok(begun)
}

#[tactic(auto, using(crate::proofs::Sizes::sized_over))]
fn pull_since(own: Stamp, pull: Pull) -> Pull
    requires { IsNew pull }
    ensures begun { result ≡ record pull { base = Some own; wanted = None } }
    ensures sized { IsSized result }
{
    let mut begun = pull;
    begun.base = Some(own);
    begun.wanted = None;
    begun
}
