//! Which inodes want a rescue, and which of their entries is to become live.

ghost use Rattle.std.specs.Prelude.{◌≡◌, ◌==◌, ◌&&◌, not};
ghost use Rattle.std.specs.List.{list_any, find};
ghost use Rattle.std.specs.Option.{option_copied};
ghost use Rattle.dir_format.specs.of_version_vector.Counters.{all_le};
ghost use Rattle.dir_format.specs.Entries.{is_live};
ghost use Rattle.dir_reconcile.specs.Rescues.{all_seen, chosen, has_live, is_of, is_that, is_to_rescue, is_unseen, rescue_wanted, saw_something, seen_with, wants_rescue};

use crate::{KeptVector, KeptVectors};
use dir_format::locus_ids::Ino;
use dir_format::locus_ids::sizes::SITES;
use dir_format::version_vector::{Ordering4, Vector};
use dir_format::{Dir, Entry};

/// Whether some inode of a directory wants a rescue: none of its entries is live, and one of the kept versions was seen by
/// none of its removals.
pub fn rescue_wanted(d: &Dir, kept: &KeptVectors) -> bool
    ensures { result ≡ rescue_wanted d.now kept.now }
{
    let entries = d.as_slice();
    let kept = kept.as_slice();
    entries.iter().any(|entry| !is_live(entry) && wants_rescue(entries, kept, entry.ino))
}

/// Whether an entry is to become live.
pub(crate) fn is_to_rescue(entries: &[Entry], kept: &[KeptVector], entry: &Entry) -> bool
    ensures { result ≡ is_to_rescue entries.now kept.now entry.now }
{
    !is_live(entry) && wants_rescue(entries, kept, entry.ino) && is_chosen(entries, entry)
}

fn wants_rescue(entries: &[Entry], kept: &[KeptVector], ino: Ino) -> bool
    ensures { result ≡ wants_rescue entries.now kept.now ino }
{
    // Of most removed files no version is kept: their entries aren't looked through.
    if !is_kept(kept, ino) {
        return false;
    }
    if has_live(entries, ino) {
        return false;
    }
    let seen = all_seen(entries, ino);
    is_any_unseen(kept, ino, &seen)
}

/// A version of the file is kept.
fn is_kept(kept: &[KeptVector], ino: Ino) -> bool
    ensures { result ≡ list_any (λ v. v.ino == ino) kept.now }
{
    kept.iter().any(|version| version.ino.get() == ino.get())
}

fn has_live(entries: &[Entry], ino: Ino) -> bool
    ensures { result ≡ has_live ino entries.now }
{
    entries
        .iter()
        .any(|entry| is_of(entry, ino) && is_live(entry))
}

fn is_any_unseen(kept: &[KeptVector], ino: Ino, seen: &Vector<SITES>) -> bool
    ensures { result ≡ list_any (is_unseen ino seen.now) kept.now }
{
    kept.iter().any(|version| is_unseen(version, ino, seen))
}

fn is_unseen(version: &KeptVector, ino: Ino, seen: &Vector<SITES>) -> bool
    ensures { result ≡ is_unseen ino seen.now version.now }
{
    version.ino.get() == ino.get() && !is_at_most(&version.vector, seen)
}

fn is_at_most(v: &Vector<SITES>, w: &Vector<SITES>) -> bool
    ensures { result ≡ all_le v.now w.now }
{
    match v.compare(w) {
        Ordering4::Same | Ordering4::Below => true,
        Ordering4::Above | Ordering4::Beside => false,
    }
}

/// Counter by counter the greatest of what the removals of an inode's entries saw.
fn all_seen(entries: &[Entry], ino: Ino) -> Vector<SITES>
    ensures { result ≡ all_seen ino entries.now }
{
    let mut seen = Vector::zero();
    for entry in entries {
        seen = seen_with(&seen, entry, ino);
    }
    seen
}

fn seen_with(seen: &Vector<SITES>, entry: &Entry, ino: Ino) -> Vector<SITES>
    ensures { result ≡ seen_with ino seen.now entry.now }
{
    if is_of(entry, ino) {
        seen.join(&entry.seen)
    } else {
        *seen
    }
}

fn is_of(entry: &Entry, ino: Ino) -> bool
    ensures { result ≡ is_of ino entry.now }
{
    entry.ino.get() == ino.get()
}

/// Whether the entry is live.
fn is_live(d: &Entry) -> bool
    ensures { result ≡ is_live d.now }
{
    d.count % 2 == 1
}

/// Whether the entry is the one of its inode to become live.
fn is_chosen(entries: &[Entry], entry: &Entry) -> bool
    ensures { result ≡ is_that (chosen entry.now.ino entries.now) entry.now }
{
    let ino = entry.ino;
    match first_that_saw(entries, ino) {
        Some(first) => first.name.as_slice() == entry.name.as_slice(),
        None => is_first(entries, entry),
    }
}

fn is_first(entries: &[Entry], entry: &Entry) -> bool
    ensures { result ≡ is_that (find (is_of entry.now.ino) entries.now) entry.now }
{
    match first_of(entries, entry.ino) {
        Some(first) => first.name.as_slice() == entry.name.as_slice(),
        None => false,
    }
}

fn first_that_saw(entries: &[Entry], ino: Ino) -> Option<&Entry>
    ensures { option_copied result ≡ find (λ d. is_of ino d && saw_something d) entries.now }
{
    for entry in entries {
        if is_that_saw(entry, ino) {
            return Some(entry);
        }
    }
    None
}

fn first_of(entries: &[Entry], ino: Ino) -> Option<&Entry>
    ensures { option_copied result ≡ find (is_of ino) entries.now }
{
    for entry in entries {
        if is_of(entry, ino) {
            return Some(entry);
        }
    }
    None
}

fn is_that_saw(entry: &Entry, ino: Ino) -> bool
    ensures { result ≡ (is_of ino entry.now && saw_something entry.now) }
{
    is_of(entry, ino) && saw_something(entry)
}

fn saw_something(entry: &Entry) -> bool
    ensures { result ≡ saw_something entry.now }
{
    let counters = entry.seen.parts();
    let nothing = [0; SITES];
    counters.as_slice() != nothing.as_slice()
}
