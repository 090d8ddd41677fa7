ghost use Rattle.std.specs.Prelude.{◌≡◌, List, ◌∷◌, [], not, filter, reverse, length, IfOk};
ghost use Rattle.std.specs.List.{list_any};
ghost use Rattle.commit_graph.specs.Versions.{same_file, same_stamp, is_ancestor, is_covered, kept};

use crate::{History, Version};
use locus_ids::{FileId, NoMemory, Stamp, Stamps};
use std::alloc::Global;

/// Whether `a` is `b`, or an ancestor of a parent of `b` by the versions of the file that stand before `b`.
/// It walks through the history once.
pub fn is_ancestor(
    alloc: Global,
    h: &History,
    file: FileId,
    a: Stamp,
    b: Stamp,
) -> Result<bool, NoMemory>
    ensures { IfOk result (λ yes. yes ≡ is_ancestor h.now file a b) }
{
    let mut wanted = Vec::new(alloc);
    wanted.push(b)?;
    reaches(h.oldest_first(), file, a, wanted)
}

/// Those of the stamps that are no proper ancestor of another of them, in their order.
/// It walks through the history once for each stamp.
pub fn kept(alloc: Global, h: &History, file: FileId, brought: &Stamps) -> Result<Stamps, NoMemory>
    ensures { IfOk result (λ made. made ≡ kept h.now file brought.now) }
{
    kept_of(alloc, h.oldest_first(), file, brought.as_slice())
}

fn kept_of(
    alloc: Global,
    versions: &[Version],
    file: FileId,
    brought: &[Stamp],
) -> Result<Stamps, NoMemory>
    ensures { IfOk result (λ made. made ≡ kept (reverse versions.now) file brought.now) }
{
    let mut made = Stamps::new(alloc);
    for stamp in brought {
        if !is_covered(alloc, versions, file, brought, *stamp)? {
            made.push(*stamp)?;
        }
    }
    Ok(made)
}

fn is_covered(
    alloc: Global,
    versions: &[Version],
    file: FileId,
    brought: &[Stamp],
    stamp: Stamp,
) -> Result<bool, NoMemory>
    ensures { IfOk result (λ yes. yes ≡ is_covered (reverse versions.now) file brought.now stamp) }
{
    let mut others = Vec::from_slice(alloc, brought)?;
    take_out(&mut others, stamp);
    reaches(versions, file, stamp, others)
}

/// Whether `a` is an ancestor of a wanted stamp: on the way from the newest version to the oldest, the parents of
/// each wanted one are wanted in its place.
fn reaches(
    versions: &[Version],
    file: FileId,
    a: Stamp,
    wanted: Vec<Stamp>,
) -> Result<bool, NoMemory>
    ensures { IfOk result (λ yes. yes ≡ list_any (is_ancestor (reverse versions.now) file a) wanted.items) }
{
    let mut wanted = wanted;
    let mut left = versions.len();
    while left > 0 {
        left -= 1;
        let version = &versions[left];
        if is_same_file(version.file, file) {
            if contains(wanted.as_slice(), version.stamp) {
                if is_same(version.stamp, a) {
                    return Ok(true);
                }
                take_out(&mut wanted, version.stamp);
                wanted.extend_from_slice(version.parents.as_slice())?;
            }
        }
    }
    Ok(contains(wanted.as_slice(), a))
}

fn is_same_file(a: FileId, b: FileId) -> bool
    ensures { result ≡ same_file a b }
{
    a == b
}

fn is_same(a: Stamp, b: Stamp) -> bool
    ensures { result ≡ same_stamp a b }
{
    a == b
}

fn contains(stamps: &[Stamp], stamp: Stamp) -> bool
    ensures { result ≡ list_any (λ s. same_stamp s stamp) stamps.now }
{
    stamps.contains(&stamp)
}

fn take_out(stamps: &mut Vec<Stamp>, stamp: Stamp)
    ensures { stamps.new.items ≡ filter (λ s. not (same_stamp s stamp)) stamps.old.items }
{
    stamps.retain(|s| *s != stamp);
}
