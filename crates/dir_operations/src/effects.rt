//! What each operation on a directory gives that may change it.

ghost use Rattle.std.specs.Prelude.{◌≡◌, ◌≤◌, ◌<◌, ◌^◌, ◌==◌, ◌%◌, true, false, Some, None, List, length, IfOk, IfNone, OnErr};
ghost use Rattle.std.specs.List.{find};
ghost use Rattle.locus_ids.specs.Sizes.{sites_max};
ghost use Rattle.locus_ids.specs.declared.refusal.Refusal.TheVariants as Refusal;
ghost use Rattle.trace_book.specs.Names.{is_name};
ghost use Rattle.dir_format.specs.declared.entry.Entry.{Entry};
ghost use Rattle.dir_format.specs.Lookups.{has_name, is_meant};
ghost use Rattle.dir_format.specs.Entries.{IsDir, IsEntry, IsVector, HasKind, HasKindOf, is_live, nothing_seen, pair_in, with_entry};
ghost use Rattle.dir_format.specs.Effects.{becomes, insert_effect, live_entry, moved, remove_effect, removed, rename_effect, rename_entry};
ghost use Rattle.dir_operations.specs.Answers.{effect_of, effect_of_some};

use crate::answer::refused;
use crate::finding::{first_of_name, live_pair, meant, pair_in, removed_pair};
use crate::size::is_too_long;
use crate::{DirAnswer, lookup};
use dir_format::{Dir, Entry, LookResult};
use locus_ids::sizes::SITES;
use locus_ids::{Bytes, Ino, Kind, NoMemory, Refusal};
use std::alloc::Global;
use trace_book::Outcome;
use version_vector::Vector;

/// Inserts a live entry of a new pair of name and inode, or answers `None` exactly where the pair stands, live or removed:
/// the directory is then as it was, as it is after `NoMemory`.
pub fn insert(d: &mut Dir, name: &[u8], ino: Ino, kind: Kind) -> Result<Option<DirAnswer>, NoMemory>
    requires name { is_name name.now ≡ true }
    requires kind { HasKind ino kind d.old }
    ensures ok { IfOk result (λ a. insert_effect name.now ino kind d.old ≡ effect_of_some a d.new) }
    ensures none { IfOk result (λ a. IfNone a (d.new ≡ d.old)) }
    ensures err { OnErr result (d.new ≡ d.old) }
{
    let None = pair_in(d.as_slice(), name, ino) else {
        return Ok(None);
    };
    let entry = new_live(d.allocator(), name, ino, kind, 1)?;
    let mut after = d.copy()?;
    after.put(entry)?;
    Ok(Some(become_or_refuse(d, after, false)))
}

/// Removes a live pair of name and inode by one who saw this version of the file, or answers `None` exactly where the pair is
/// not live: the directory is then as it was, as it is after `NoMemory`.
pub fn remove(
    d: &mut Dir,
    name: &[u8],
    ino: Ino,
    seen: &Vector<SITES>,
) -> Result<Option<DirAnswer>, NoMemory>
    ensures ok { IfOk result (λ a. remove_effect name.now ino seen.now d.old ≡ effect_of_some a d.new) }
    ensures none { IfOk result (λ a. IfNone a (d.new ≡ d.old)) }
    ensures err { OnErr result (d.new ≡ d.old) }
{
    let Some(entry) = live_pair(d, name, ino) else {
        return Ok(None);
    };
    let spent = entry.count == u32::MAX;
    let gone = removed(d.allocator(), entry, seen)?;
    let mut after = d.copy()?;
    after.put(gone)?;
    Ok(Some(become_or_refuse(d, after, spent)))
}

/// Gives the only live entry that a component means another name, where it stays the same file. After `NoMemory` the
/// directory is as it was.
pub fn rename(d: &mut Dir, component: &[u8], name: &[u8]) -> Result<DirAnswer, NoMemory>
    requires name { is_name name.now ≡ true }
    ensures ok { IfOk result (λ a. rename_effect component.now name.now d.old ≡ effect_of a d.new) }
    ensures err { OnErr result (d.new ≡ d.old) }
{
    match lookup(d, component) {
        LookResult::Found { ino: _, kind: _ } => rename_found(d, component, name),
        LookResult::Absent => refused_absent(d.allocator(), component),
        LookResult::Ambiguous { a, b } => Ok(refused(Refusal::Ambiguous {
            a: a.get(),
            b: b.get(),
        })),
    }
}

fn rename_found(d: &mut Dir, component: &[u8], name: &[u8]) -> Result<DirAnswer, NoMemory>
    requires name { is_name name.now ≡ true }
    ensures ok { IfOk result (λ a. rename_entry component.now name.now d.old (find (is_meant component.now) d.old) ≡ effect_of a d.new) }
    ensures err { OnErr result (d.new ≡ d.old) }
{
    let Some(entry) = meant(d, component) else {
        return refused_absent(d.allocator(), component);
    };
    if let Some(other) = first_of_name(d.as_slice(), name) {
        return Ok(refused(Refusal::Exists {
            ino: other.ino.get(),
        }));
    }
    let spent = entry.count == u32::MAX;
    let after = renamed(d, entry, name)?;
    Ok(become_or_refuse(d, after, spent))
}

fn refused_absent(alloc: Global, component: &[u8]) -> Result<DirAnswer, NoMemory>
    ensures { IfOk result (λ a. a ≡ record { outcome = Outcome.No (Refusal.Absent component.now); counts = false; spent = false }) }
{
    let name = Bytes::from_slice(alloc, component)?;
    Ok(refused(Refusal::Absent { name }))
}

/// The directory in which the old pair of an entry is removed and that with the new name is live.
fn renamed(d: &Dir, entry: &Entry, name: &[u8]) -> Result<Dir, NoMemory>
    requires name { is_name name.now ≡ true }
    requires entry { IsEntry entry.now }
    requires live { is_live entry.now ≡ true }
    requires kind { HasKindOf entry.now d.now }
    requires free { find (has_name name.now) d.now ≡ None }
    ensures { IfOk result (λ after. after ≡ with_entry (moved entry.now name.now (pair_in name.now entry.now.ino d.now)) (with_entry (removed entry.now nothing_seen) d.now)) }
{
    let gone = removed(d.allocator(), entry, &Vector::zero())?;
    let new = moved(d, entry, name)?;
    let mut after = d.copy()?;
    after.put(gone)?;
    after.put(new)?;
    Ok(after)
}

/// The entry under its new name.
fn moved(d: &Dir, entry: &Entry, name: &[u8]) -> Result<Entry, NoMemory>
    requires name { is_name name.now ≡ true }
    requires free { find (has_name name.now) d.now ≡ None }
    ensures value { IfOk result (λ e. e ≡ moved entry.now name.now (pair_in name.now entry.now.ino d.now)) }
    ensures entry { IfOk result (λ e. IsEntry e) }
    ensures kind { (ds : List Entry) → HasKindOf entry.now ds → IfOk result (λ e. HasKindOf e ds) }
{
    match removed_pair(d, name, entry.ino) {
        None => new_live(d.allocator(), name, entry.ino, entry.kind, 1),
        Some(old) => new_live(d.allocator(), name, entry.ino, entry.kind, old.count + 1),
    }
}

/// The directory becomes the one after an operation, unless that is too long.
fn become_or_refuse(d: &mut Dir, after: Dir, spent: bool) -> DirAnswer
    ensures { becomes d.old after spent ≡ effect_of result d.new }
{
    if is_too_long(after.as_slice(), 0) {
        return refused(Refusal::TooLong);
    }
    *d = after;
    DirAnswer {
        outcome: Outcome::Done,
        counts: true,
        spent,
    }
}

/// A live entry of a name.
fn new_live(alloc: Global, name: &[u8], ino: Ino, kind: Kind, count: u32) -> Result<Entry, NoMemory>
    requires name { is_name name.now ≡ true }
    requires live { ((count % 2) == 1) ≡ true }
    ensures value { IfOk result (λ e. e ≡ live_entry name.now ino kind count) }
    ensures entry { IfOk result (λ e. IsEntry e) }
{
    let _ino = ino.get();
    let name = Bytes::from_slice(alloc, name)?;
    Ok(Entry {
        name,
        ino,
        kind,
        count,
        seen: Vector::zero(),
    })
}

/// The live entry as removed by one who saw this version.
fn removed(alloc: Global, entry: &Entry, seen: &Vector<SITES>) -> Result<Entry, NoMemory>
    requires entry { IsEntry entry.now }
    requires live { is_live entry.now ≡ true }
    ensures value { IfOk result (λ e. e ≡ removed entry.now seen.now) }
    ensures entry { IfOk result (λ e. IsEntry e) }
    ensures kind { (ds : List Entry) → HasKindOf entry.now ds → IfOk result (λ e. HasKindOf e ds) }
{
    if entry.count == u32::MAX {
        return Ok(entry.clone()?);
    }
    counters_fit(seen);
    let name = entry.name.copy()?;
    Ok(Entry {
        name,
        ino: entry.ino,
        kind: entry.kind,
        count: entry.count + 1,
        seen: *seen,
    })
}

/// A vector has sixteen counters of four bytes.
fn counters_fit(v: &Vector<SITES>)
    ensures { IsVector v.now }
{
    are_counters(&v.parts());
}

fn are_counters(parts: &[u32])
    requires { length parts.now ≡ sites_max }
    ensures { IsVector parts.now }
{
    let _parts = parts;
}
