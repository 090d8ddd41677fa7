ghost use Rattle.std.specs.Prelude.{◌≡◌, ◌<◌, ◌≤◌, ◌++◌, ◌∷◌, ◌⊎◌, [], true, false, length, IfOk, OnOk};
ghost use Rattle.dir_format.specs.Entries.{IsDir};
ghost use Rattle.dir_reconcile.specs.Joins.{AgreeOnKinds, joined_dirs, joined_entry};
ghost use Rattle.dir_reconcile.specs.Merging.{merged, from_first, from_second};

use dir_format::locus_ids::NoMemory;
use dir_format::{Dir, Entry, entry_cmp};
use std::alloc::Global;
use std::cmp::Ordering;

/// The directory with each pair of name and inode that either has: of two entries of a pair the one with the greater count,
/// and at equal counts with what both removals saw.
pub fn join_dirs(alloc: Global, a: &Dir, b: &Dir) -> Result<Dir, NoMemory>
    requires { AgreeOnKinds a.now b.now }
    ensures { IfOk result (λ d. d ≡ joined_dirs a.now b.now) }
{
    let entries = merge(alloc, a.as_slice(), b.as_slice())?;
    Ok(Dir::of(entries))
}

fn merge(alloc: Global, xs: &[Entry], ys: &[Entry]) -> Result<Vec<Entry>, NoMemory>
    ensures { IfOk result (λ v. v.items ≡ joined_dirs xs.now ys.now) }
{
    let mut out = Vec::with_capacity(alloc, xs.len().saturating_add(ys.len()))?;
    let mut i = 0;
    let mut j = 0;
    while are_left(xs, i, ys, j) {
        let order = entry_cmp(&xs[i], &ys[j]);
        let entry = merged(&xs[i], &ys[j], order)?;
        push(&mut out, entry)?;
        i += from_first(order);
        j += from_second(order);
    }
    push_all(&mut out, &xs[i..])?;
    push_all(&mut out, &ys[j..])?;
    Ok(out)
}

/// Whether both have entries left.
fn are_left(xs: &[Entry], i: usize, ys: &[Entry], j: usize) -> bool
    ensures both { result ≡ true → (i < length xs.now) × (j < length ys.now) }
    ensures over { result ≡ false → (length xs.now ≤ i) ⊎ (length ys.now ≤ j) }
{
    i < xs.len() && j < ys.len()
}

/// What comes next of two entries.
fn merged(x: &Entry, y: &Entry, order: Ordering) -> Result<Entry, NoMemory>
    ensures { IfOk result (λ e. e ≡ merged order x.now y.now) }
{
    match order {
        Ordering::Less => copy_of(x),
        Ordering::Equal => joined_entry(x, y),
        Ordering::Greater => copy_of(y),
    }
}

fn joined_entry(a: &Entry, b: &Entry) -> Result<Entry, NoMemory>
    ensures { IfOk result (λ e. e ≡ joined_entry a.now b.now) }
{
    match a.count.cmp(&b.count) {
        Ordering::Less => copy_of(b),
        Ordering::Equal => {
            let name = a.name.copy()?;
            Ok(Entry {
                name,
                ino: a.ino,
                kind: a.kind,
                count: a.count,
                seen: a.seen.join(&b.seen),
            })
        }
        Ordering::Greater => copy_of(a),
    }
}

pub(crate) fn copy_of(entry: &Entry) -> Result<Entry, NoMemory>
    ensures { IfOk result (λ e. e ≡ entry.now) }
{
    let copy = entry.clone()?;
    Ok(copy)
}

/// How many entries of the first list go by, where its entry stands so to that of the second.
fn from_first(order: Ordering) -> usize
    ensures value { result ≡ from_first order }
    ensures few { result ≤ 1 }
{
    match order {
        Ordering::Greater => 0,
        _ => 1,
    }
}

/// The same of the second list.
fn from_second(order: Ordering) -> usize
    ensures value { result ≡ from_second order }
    ensures few { result ≤ 1 }
{
    match order {
        Ordering::Less => 0,
        _ => 1,
    }
}

pub(crate) fn push(out: &mut Vec<Entry>, entry: Entry) -> Result<(), NoMemory>
    ensures { OnOk result (out.new.items ≡ out.old.items ++ entry ∷ []) }
{
    out.push(entry)?;
    Ok(())
}

fn push_all(out: &mut Vec<Entry>, entries: &[Entry]) -> Result<(), NoMemory>
    ensures { OnOk result (out.new.items ≡ out.old.items ++ entries.now) }
{
    for entry in entries {
        let copy = copy_of(entry)?;
        push(out, copy)?;
    }
    Ok(())
}
