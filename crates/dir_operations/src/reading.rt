//! The fields of an entry, each in the range that those before it leave.

ghost use Rattle.std.specs.Prelude.{◌≡◌, ◌≤◌, ◌==◌, ◌%◌, true, length, reverse, slice_index, IfOk, ◌+◌};
ghost use Rattle.locus_ids.specs.Sizes.{inodes_max};
ghost use Rattle.field_codec.specs.Codec.{within, u16_in};
ghost use Rattle.field_codec.specs.Reads.{Reads, ReadsInMemory};
ghost use Rattle.dir_format.specs.Entries.{entry_cmp};
ghost use Rattle.dir_format.specs.Grammar.{sized, kind_field, vector, seen_field, kind_of, name_follows, ino_follows, kind_follows, entry_after};
ghost use Rattle.dir_operations.specs.Kinds.{KnowsKinds};

use crate::names::is_name;
use dir_format::Entry;
use field_codec::{FieldFault, Fields, ReadError};
use locus_ids::sizes::{INODES, SITES};
use locus_ids::{Bytes, Ino, Kind};
use std::alloc::Global;
use std::cmp::Ordering;
use version_vector::Vector;

/// The next entry after those before, of whose inodes the table has the kinds.
pub(crate) fn read_entry(
    alloc: Global,
    fields: &mut Fields,
    before: &[Entry],
    kinds: &[u8],
) -> Result<Entry, ReadError>
    requires known { KnowsKinds kinds.now (reverse before.now) }
    requires inodes { length kinds.now ≡ inodes_max + 1 }
    ensures read { ReadsInMemory (entry_after (reverse before.now)) (λ d. d) fields.old result fields.new }
    ensures kind { IfOk result (λ d. kind_follows (reverse before.now) d.ino d.kind ≡ true) }
{
    let name = read_name(fields, before)?;
    let ino = read_ino(fields, before, name)?;
    let kind = read_kind(fields, ino, before, kinds)?;
    let count = fields.u32_in(1, u32::MAX)?;
    let seen = read_seen(fields, count % 2 == 1)?;
    let name = Bytes::from_slice(alloc, name)?;
    Ok(Entry {
        name,
        ino,
        kind,
        count,
        seen,
    })
}

fn read_name<'a>(fields: &mut Fields<'a>, before: &[Entry]) -> Result<&'a [u8], FieldFault>
    ensures { Reads (within (name_follows (reverse before.now)) sized) (λ name. name.now) fields.old result fields.new }
{
    let at = fields.at();
    let name = read_sized(fields)?;
    if name_follows(before, name) {
        Ok(name)
    } else {
        Err(FieldFault::Range { at })
    }
}

fn read_sized<'a>(fields: &mut Fields<'a>) -> Result<&'a [u8], FieldFault>
    ensures { Reads sized (λ bytes. bytes.now) fields.old result fields.new }
{
    let length = fields.u8_in(1, 60)?;
    fields.slice(u32::from(length))
}

fn name_follows(before: &[Entry], name: &[u8]) -> bool
    ensures { result ≡ name_follows (reverse before.now) name.now }
{
    match before.last() {
        None => is_name(name),
        Some(last) => is_name(name) && name.cmp(last.name.as_slice()) != Ordering::Less,
    }
}

fn read_ino(fields: &mut Fields, before: &[Entry], name: &[u8]) -> Result<Ino, FieldFault>
    ensures { Reads (within (ino_follows (reverse before.now) name.now) (u16_in 1 inodes_max)) (λ ino. ino) fields.old result fields.new }
{
    let at = fields.at();
    let n = fields.u16_in(1, INODES)?;
    match Ino::new(n) {
        Some(ino) if ino_follows(before, name, n) => Ok(ino),
        _ => Err(FieldFault::Range { at }),
    }
}

fn ino_follows(before: &[Entry], name: &[u8], ino: u16) -> bool
    ensures { result ≡ ino_follows (reverse before.now) name.now ino }
{
    match before.last() {
        None => true,
        Some(last) => name != last.name.as_slice() || last.ino.get() < ino,
    }
}

fn read_kind(
    fields: &mut Fields,
    ino: Ino,
    before: &[Entry],
    kinds: &[u8],
) -> Result<Kind, FieldFault>
    requires known { KnowsKinds kinds.now (reverse before.now) }
    requires inodes { length kinds.now ≡ inodes_max + 1 }
    ensures read { Reads (within (kind_follows (reverse before.now) ino) kind_field) (λ kind. kind) fields.old result fields.new }
    ensures follows { IfOk result (λ kind. kind_follows (reverse before.now) ino kind ≡ true) }
{
    let at = fields.at();
    let _before = before;
    let n = fields.u8_in(1, 2)?;
    let known = kinds[usize::from(ino.get())];
    if known == 0 || known == n {
        Ok(kind_of(n))
    } else {
        Err(FieldFault::Range { at })
    }
}

fn kind_of(n: u8) -> Kind
    ensures { result ≡ kind_of n }
{
    if n == 1 { Kind::File } else { Kind::Dir }
}

fn read_seen(fields: &mut Fields, is_live: bool) -> Result<Vector<SITES>, FieldFault>
    ensures { Reads (seen_field is_live) (λ seen. seen) fields.old result fields.new }
{
    if is_live {
        return Ok(Vector::zero());
    }
    read_vector(fields)
}

fn read_vector(fields: &mut Fields) -> Result<Vector<SITES>, FieldFault>
    ensures { Reads vector (λ v. v) fields.old result fields.new }
{
    let mut counters = [0; SITES];
    for i in 0..SITES {
        counters[i] = fields.get_u32()?;
    }
    Ok(Vector::from_parts(counters))
}
