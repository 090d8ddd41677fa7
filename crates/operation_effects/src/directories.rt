//! What each operation gives on a content that is a directory's, or is read as one without entries.

ghost use Rattle.std.specs.Prelude.{◌≡◌, ◌≤◌, ◌<◌, ◌^◌, ◌+◌, ℕ, List, Option, length, true, not, cond, nat_lt, IfOk, IfSome, IfNone};
ghost use Rattle.std.specs.List.{list_any};
ghost use Rattle.locus_ids.specs.Sizes.{directory_bytes_max};
ghost use Rattle.trace_book.specs.Names.{is_name};
ghost use Rattle.dir_format.specs.Entries.{HasKind, is_pair, pair_in};
ghost use Rattle.dir_format.specs.Grammar.{dir_bytes};
ghost use Rattle.dir_format.specs.Effects.{insert_effect, size_of};
ghost use Rattle.dir_operations.specs.Answers.{effect_of_some};
ghost use Rattle.role_steps.specs.of_file_effects.Effects.{As, Removes, effect, in_directory};
ghost use Rattle.trace_book.specs.declared.operation.Op.TheVariants as Op;
ghost use Rattle.operation_effects.specs.Settling.{AreBounded, IsShort, IsShortOf, effect_by, effects_by, left_or};

use crate::settled::Settled;
use dir_format::{Dir, Entry};
use dir_operations::{DirAnswer, dir_in, encode_dir, has_kind, is_name};
use locus_ids::sizes::{DIRECTORY_BYTES, SITES};
use locus_ids::{Bytes, Ino, Kind, NoMemory, Refusal};
use std::alloc::Global;
use trace_book::Outcome;
use version_vector::Vector;

/// Asks that a name has no live entry, and that an entry of it fits.
pub(crate) fn probe(alloc: Global, content: &[u8], name: &[u8]) -> Result<Option<Settled>, NoMemory>
    requires { length content.now < 2 ^ 32 }
    ensures value { IfOk result (λ s. effects_by content.now s ≡ effect (As (Op.Probe name.now)) content.now) }
    ensures short { IfOk result IsShortOf }
{
    if !is_name(name) {
        return Ok(None);
    }
    let d = dir_in(alloc, content)?;
    let a = dir_operations::probe(&d, name);
    settled(&d, Some(a))
}

/// Asks for the only live entry that a component means.
pub(crate) fn find(
    alloc: Global,
    content: &[u8],
    component: &[u8],
) -> Result<Option<Settled>, NoMemory>
    requires { length content.now < 2 ^ 32 }
    ensures value { IfOk result (λ s. effects_by content.now s ≡ effect (As (Op.Find component.now)) content.now) }
    ensures short { IfOk result IsShortOf }
{
    let d = dir_in(alloc, content)?;
    let a = dir_operations::find(&d, component)?;
    settled(&d, Some(a))
}

/// Asks that the directory shows no name.
pub(crate) fn empty(alloc: Global, content: &[u8]) -> Result<Option<Settled>, NoMemory>
    requires { length content.now < 2 ^ 32 }
    ensures value { IfOk result (λ s. effects_by content.now s ≡ effect (As Op.Empty) content.now) }
    ensures short { IfOk result IsShortOf }
{
    let d = dir_in(alloc, content)?;
    let a = dir_operations::empty(&d)?;
    settled(&d, Some(a))
}

/// Gives the only live entry that a component means another name.
pub(crate) fn rename(
    alloc: Global,
    content: &[u8],
    component: &[u8],
    name: &[u8],
) -> Result<Option<Settled>, NoMemory>
    requires { length content.now < 2 ^ 32 }
    ensures value { IfOk result (λ s. effects_by content.now s ≡ effect (As (Op.Rename component.now name.now)) content.now) }
    ensures short { IfOk result IsShortOf }
{
    if !is_name(name) {
        return Ok(None);
    }
    let mut d = dir_in(alloc, content)?;
    let a = dir_operations::rename(&mut d, component, name)?;
    settled(&d, Some(a))
}

/// Removes a live pair of name and inode by one who saw this version of the file.
pub(crate) fn remove(
    alloc: Global,
    content: &[u8],
    name: &[u8],
    ino: u16,
    seen: &Vector<SITES>,
) -> Result<Option<Settled>, NoMemory>
    requires { length content.now < 2 ^ 32 }
    ensures value { IfOk result (λ s. effects_by content.now s ≡ effect (Removes name.now ino seen.now) content.now) }
    ensures short { IfOk result IsShortOf }
{
    let mut d = dir_in(alloc, content)?;
    let Some(ino) = known_ino(&d, ino) else {
        return Ok(None);
    };
    let a = dir_operations::remove(&mut d, name, ino, seen)?;
    settled(&d, a)
}

/// Inserts a live entry of a new pair of name and inode.
pub(crate) fn insert(
    alloc: Global,
    content: &[u8],
    name: &[u8],
    ino: u16,
    kind: Kind,
) -> Result<Option<Settled>, NoMemory>
    requires { length content.now < 2 ^ 32 }
    ensures value { IfOk result (λ s. effects_by content.now s ≡ effect (As (Op.Insert name.now ino kind)) content.now) }
    ensures short { IfOk result IsShortOf }
{
    let Some(ino) = Ino::new(ino) else {
        return Ok(None);
    };
    if !is_name(name) {
        return Ok(None);
    }
    let mut d = dir_in(alloc, content)?;
    if !has_kind(&d, ino, kind) {
        return insert_other_kind(&d, name, ino, kind);
    }
    let a = dir_operations::insert(&mut d, name, ino, kind)?;
    settled(&d, a)
}

/// What an operation on a directory gives, with the content that it leaves where it counts as a change.
fn settled(d: &Dir, a: Option<DirAnswer>) -> Result<Option<Settled>, NoMemory>
    requires { AreBounded (effect_of_some a d.now) }
    ensures value { IfOk result (λ s. (content : List ℕ) → effects_by content s ≡ in_directory content (effect_of_some a d.now)) }
    ensures short { IfOk result IsShortOf }
{
    match a {
        None => Ok(None),
        Some(a) => {
            let one = settled_one(d, a.outcome, a.counts, a.spent)?;
            Ok(Some(one))
        }
    }
}

fn settled_one(d: &Dir, outcome: Outcome, counts: bool, spent: bool) -> Result<Settled, NoMemory>
    requires { counts ≡ true → length (dir_bytes d.now) ≤ directory_bytes_max }
    ensures value { IfOk result (λ s. (content : List ℕ) → Some (effect_by content s) ≡ in_directory content (Some (record { outcome = outcome; entries = d.now; counts = counts; spent = spent }))) }
    ensures short { IfOk result (λ s. IsShort s.left) }
{
    let _entries = d.as_slice();
    let left = left_by(d, counts)?;
    Ok(Settled {
        outcome,
        left,
        counts,
        spent,
    })
}

/// The bytes of the directory, where an operation counts as a change.
fn left_by(d: &Dir, counts: bool) -> Result<Option<Bytes>, NoMemory>
    requires { counts ≡ true → length (dir_bytes d.now) ≤ directory_bytes_max }
    ensures value { IfOk result (λ left. (content : List ℕ) → left_or content left ≡ cond counts (dir_bytes d.now) content) }
    ensures short { IfOk result IsShort }
{
    if !counts {
        return Ok(None);
    }
    let mut bytes = Bytes::new(d.allocator());
    encode_dir(d, &mut bytes)?;
    Ok(Some(bytes))
}

/// An insert of an inode that stands with the other kind: what it would leave is no directory, so that it is lawful only
/// where it is refused for its length.
fn insert_other_kind(
    d: &Dir,
    name: &[u8],
    ino: Ino,
    kind: Kind,
) -> Result<Option<Settled>, NoMemory>
    requires name { is_name name.now ≡ true }
    requires kind { ¬ HasKind ino kind d.now }
    ensures value { IfOk result (λ s. (content : List ℕ) → effects_by content s ≡ in_directory content (insert_effect name.now ino kind d.now)) }
    ensures short { IfOk result IsShortOf }
{
    let _number = ino.get();
    if has_pair(d.as_slice(), name, ino) {
        return Ok(None);
    }
    if is_room_beside(d, name)? {
        return Ok(None);
    }
    Ok(Some(Settled {
        outcome: Outcome::No {
            why: Refusal::TooLong,
        },
        left: None,
        counts: false,
        spent: false,
    }))
}

/// The inode of this number, or `None` where no entry can have it.
fn known_ino(d: &Dir, ino: u16) -> Option<Ino>
    ensures value { IfSome result (λ known. known ≡ ino) }
    ensures none { IfNone result ((name : List ℕ) → pair_in name ino d.now ≡ None) }
{
    let _entries = d.as_slice();
    match Ino::new(ino) {
        Some(known) => Some(known),
        None => None,
    }
}

fn has_pair(entries: &[Entry], name: &[u8], ino: Ino) -> bool
    ensures { result ≡ list_any (is_pair name.now ino) entries.now }
{
    entries.iter().any(|entry| entry.name.as_slice() == name && entry.ino.get() == ino.get())
}

/// A live entry of this name fits beside the entries.
fn is_room_beside(d: &Dir, name: &[u8]) -> Result<bool, NoMemory>
    requires { is_name name.now ≡ true }
    ensures { IfOk result (λ yes. yes ≡ not (nat_lt directory_bytes_max ((length name.now + 8) + size_of d.now))) }
{
    let mut bytes = Bytes::new(d.allocator());
    encode_dir(d, &mut bytes)?;
    Ok(bytes.len() <= DIRECTORY_BYTES - 8 - name.len())
}
