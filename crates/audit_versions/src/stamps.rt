// Lists of stamps, and what is asked of one version alone.
ghost use Rattle.std.specs.Prelude.{◌≡◌, ◌≤◌, ◌&&◌, ◌++◌, List, [], ◌∷◌, None, length, insert, IfSome, IfOk, OnOk, OnErr};
ghost use Rattle.std.specs.List.{list_all};
ghost use Rattle.locus_ids.specs.declared.ids.Stamp.{Stamp};
ghost use Rattle.commit_graph.specs.Versions.{same_stamp, is_stamp_below, with_stamp};
ghost use Rattle.audit_versions.specs.Regular.{is_none_of, is_formatted};
ghost use Rattle.audit_versions.specs.Keeping.{ascend, has_number, tops, with_last};

use commit_graph::Version;
use locus_ids::{NoMemory, Stamp, Stamps};
use std::alloc::Global;

pub(crate) fn is_same(a: Stamp, b: Stamp) -> bool
    ensures { result ≡ same_stamp a b }
{
    a == b
}

fn is_stamp_below(a: Stamp, b: Stamp) -> bool
    ensures { result ≡ is_stamp_below a b }
{
    a.site < b.site || (a.site == b.site && a.n < b.n)
}

pub(crate) fn is_none_of(stamps: &[Stamp]) -> bool
    ensures { result ≡ is_none_of stamps.now }
{
    stamps.is_empty()
}

/// No site committed the version.
pub(crate) fn is_formatted(version: &Version) -> bool
    ensures { result ≡ is_formatted version.now }
{
    version.site == 0 && version.stamp.n == 0 && is_none_of(version.parents.as_slice())
}

pub(crate) fn copy_of(alloc: Global, stamps: &[Stamp]) -> Result<Stamps, NoMemory>
    ensures { IfOk result (λ made. made ≡ stamps.now) }
{
    let mut made = Stamps::new(alloc);
    for stamp in stamps {
        made.push(*stamp)?;
    }
    Ok(made)
}

fn has_number(stamp: Stamp) -> bool
    ensures { result ≡ has_number stamp }
{
    stamp.site == 0 || stamp.n != 0
}

/// A stamp may come after the last one.
fn comes_after(last: Option<Stamp>, stamp: Stamp) -> bool
    ensures { (rest : List Stamp) → ascend (with_last last (stamp ∷ rest)) ≡ (result && ascend (stamp ∷ rest)) }
{
    match last {
        Some(before) => is_stamp_below(before, stamp),
        None => true,
    }
}

/// The stamps ascend.
fn ascend(stamps: &[Stamp]) -> bool
    ensures { result ≡ ascend stamps.now }
{
    let mut last = None;
    for stamp in stamps {
        if !comes_after(last, *stamp) {
            return false;
        }
        last = Some(*stamp);
    }
    true
}

fn are_numbered(stamps: &[Stamp]) -> bool
    ensures { result ≡ list_all has_number stamps.now }
{
    stamps.iter().all(|stamp| has_number(*stamp))
}

/// The stamps ascend, and each site's are numbered from 1 on.
pub(crate) fn are_in_order(stamps: &[Stamp]) -> bool
    ensures { result ≡ (ascend stamps.now && list_all has_number stamps.now) }
{
    ascend(stamps) && are_numbered(stamps)
}

/// The last of its site, where a stamp of another one comes next.
fn last_of_site(last: Option<Stamp>, stamp: Stamp) -> Option<Stamp>
    ensures { (rest : List Stamp) → tops (with_last last (stamp ∷ rest)) ≡ with_last result (tops (stamp ∷ rest)) }
{
    match last {
        Some(before) if before.site != stamp.site => last,
        Some(_) => None,
        None => None,
    }
}

fn add(made: &mut Stamps, one: Option<Stamp>) -> Result<(), NoMemory>
    ensures { OnOk result (made.new ≡ made.old ++ with_last one []) }
{
    match one {
        Some(stamp) => made.push(stamp),
        None => Ok(()),
    }
}

/// Of stamps in order the last of each site.
pub(crate) fn tops_of(alloc: Global, stamps: &[Stamp]) -> Result<Stamps, NoMemory>
    ensures { IfOk result (λ made. made ≡ tops stamps.now) }
{
    let mut made = Stamps::new(alloc);
    let mut last = None;
    for stamp in stamps {
        add(&mut made, last_of_site(last, *stamp))?;
        last = Some(*stamp);
    }
    add(&mut made, last)?;
    Ok(made)
}

/// Where a stamp comes into an ascending list, or `None` where it stands.
fn place_of(stamps: &[Stamp], stamp: Stamp) -> Option<usize>
    ensures some { IfSome result (λ at. (at ≤ length stamps.now) × (insert stamps.now at stamp ≡ with_stamp stamp stamps.now)) }
    ensures none { result ≡ None → with_stamp stamp stamps.now ≡ stamps.now }
{
    for at in 0..stamps.len() {
        let other = stamps[at];
        if is_stamp_below(stamp, other) {
            return Some(at);
        }
        if is_same(stamp, other) {
            return None;
        }
    }
    Some(stamps.len())
}

/// Brings a stamp to its place in an ascending list, unless it stands there.
pub(crate) fn insert_stamp(stamps: &mut Stamps, stamp: Stamp) -> Result<(), NoMemory>
    ensures ok { OnOk result (stamps.new ≡ with_stamp stamp stamps.old) }
    ensures err { OnErr result (stamps.new ≡ stamps.old) }
{
    match place_of(stamps.as_slice(), stamp) {
        Some(at) => stamps.insert(at, stamp),
        None => Ok(()),
    }
}
