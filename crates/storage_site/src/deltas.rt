//! Which pages were written since a version, by the steps that are remembered.

ghost use Rattle.std.specs.Prelude.{◌≡◌, ◌≤◌, ◌++◌, ◌∷◌, [], Some, None, cond, filter, length, take, IfSome, IfNone, IfOk, OnOk};
ghost use Rattle.file_content.specs.Pages.{has_page, pages_from};
ghost use Rattle.role_steps.specs.Storage.{delta_of, pages_since};
ghost use Rattle.storage_site.specs.Wanting.{is_written, pages_written};

use crate::serving::same_stamp;
use locus_ids::{NoMemory, Stamp};
use role_steps::Step;
use std::alloc::Global;
use store_instances::short_number;
use wire_messages::PageNumbers;

/// How many of the steps, the latest first, lead back from the wanted version to the own one; `None` where they don't.
fn steps_since(steps: &[Step], own: Stamp, wanted: Stamp) -> Option<usize>
    ensures few { IfSome result (λ n. n ≤ length steps.now) }
    ensures some { IfSome result (λ n. pages_since own wanted steps.now ≡ Some (pages_written (take n steps.now))) }
    ensures none { IfNone result (pages_since own wanted steps.now ≡ None) }
{
    let mut at = wanted;
    for place in 0..steps.len() {
        let step = &steps[place];
        if !same_stamp(step.after, at) {
            return None;
        }
        let Some(before) = step.before else {
            return None;
        };
        if same_stamp(before, own) {
            return Some(place + 1);
        }
        at = before;
    }
    None
}

/// All pages of a version of so many.
fn all_pages(alloc: Global, count: usize) -> Result<PageNumbers, NoMemory>
    ensures { IfOk result (λ pages. pages ≡ pages_from 0 count) }
{
    let mut pages = PageNumbers::new(alloc);
    for page in 0..count {
        let number = short_number(page)?;
        pages.push(number)?;
    }
    Ok(pages)
}

/// Those of so many pages that the steps wrote.
fn written_in(alloc: Global, steps: &[Step], count: usize) -> Result<PageNumbers, NoMemory>
    ensures { IfOk result (λ pages. pages ≡ filter (is_written steps.now) (pages_from 0 count)) }
{
    let mut pages = PageNumbers::new(alloc);
    for page in 0..count {
        let number = short_number(page)?;
        push_written(&mut pages, steps, number)?;
    }
    Ok(pages)
}

/// The page is put at the end, if one of the steps wrote it.
fn push_written(pages: &mut PageNumbers, steps: &[Step], page: u16) -> Result<(), NoMemory>
    ensures { OnOk result (pages.new ≡ cond (is_written steps.now page) (pages.old ++ page ∷ []) pages.old) }
{
    if !is_written(steps, page) {
        return Ok(());
    }
    pages.push(page)?;
    Ok(())
}

/// One of the steps wrote the page.
fn is_written(steps: &[Step], page: u16) -> bool
    ensures { result ≡ is_written steps.now page }
{
    steps.iter().any(|step| has_written(step, page))
}

fn has_written(step: &Step, page: u16) -> bool
    ensures { result ≡ has_page step.now.pages page }
{
    step.pages.as_slice().contains(&page)
}

/// The pages of a version of so many that are new over the own one.
pub(crate) fn delta_of(
    alloc: Global,
    steps: &[Step],
    own: Stamp,
    wanted: Stamp,
    count: usize,
) -> Result<PageNumbers, NoMemory>
    ensures { IfOk result (λ pages. pages ≡ delta_of count (pages_since own wanted steps.now)) }
{
    match steps_since(steps, own, wanted) {
        Some(number) => {
            let pages = written_in(alloc, &steps[..number], count)?;
            Ok(pages)
        }
        None => all_pages(alloc, count),
    }
}
