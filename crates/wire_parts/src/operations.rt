ghost use Rattle.std.specs.Prelude.{◌≡◌, ◌<◌, ◌^◌, ◌++◌, length, replicate, OnOk};
ghost use Rattle.locus_ids.specs.Sizes.{sites_max};
ghost use Rattle.field_codec.specs.Codec.{pair};
ghost use Rattle.field_codec.specs.Reads.{ReadsInMemory};
ghost use Rattle.field_codec.specs.Shapes.{bytes_of, IsInRange};
ghost use Rattle.wire_fields.specs.Parts.{inodes, sizes, names, components, vectors, no_vector};
ghost use Rattle.wire_fields.specs.Operations.{op_number, seeing_fields, op_case, inserts, reads, writes, ops};

use crate::{
    put_data, put_kind, put_short, put_vector, read_component, read_kind, read_name, read_size,
    read_vector,
};
use field_codec::{FieldFault, Fields, ReadError, put_u8, put_u16, put_u32};
use locus_ids::sizes::{FILE_BYTES, INODES, SITES};
use locus_ids::{Bytes, Kind, NoMemory};
use std::alloc::Global;
use trace_book::Op;
use version_vector::Vector;
use wire_fields::Asked;

/// An operation that has seen no entry.
fn without_seen(op: Op) -> Asked
    ensures { result ≡ Asked.Op op (replicate sites_max 0) }
{
    Asked::Op {
        op,
        seen: Vector::zero(),
    }
}

fn read_insert(alloc: Global, fields: &mut Fields) -> Result<Asked, ReadError>
    ensures { ReadsInMemory (op_case (λ p. Asked.Op (Op.Insert p.0.0 p.0.1.0 p.0.1.1) p.1) (pair inserts no_vector)) (λ asked. asked) fields.old result fields.new }
{
    let name = read_name(alloc, fields)?;
    let ino = fields.u16_in(1, INODES)?;
    let kind = read_kind(fields)?;
    Ok(without_seen(Op::Insert { name, ino, kind }))
}

fn read_remove(alloc: Global, fields: &mut Fields) -> Result<Asked, ReadError>
    ensures { ReadsInMemory (op_case (λ p. Asked.Op (Op.Remove p.0.0 p.0.1) p.1) (pair (pair names inodes) vectors)) (λ asked. asked) fields.old result fields.new }
{
    let name = read_name(alloc, fields)?;
    let ino = fields.u16_in(1, INODES)?;
    let seen = read_vector(fields)?;
    Ok(Asked::Op {
        op: Op::Remove { name, ino },
        seen,
    })
}

fn read_rename(alloc: Global, fields: &mut Fields) -> Result<Asked, ReadError>
    ensures { ReadsInMemory (op_case (λ p. Asked.Op (Op.Rename p.0.0 p.0.1) p.1) (pair (pair components names) no_vector)) (λ asked. asked) fields.old result fields.new }
{
    let component = read_component(alloc, fields)?;
    let name = read_name(alloc, fields)?;
    Ok(without_seen(Op::Rename { component, name }))
}

fn read_read(fields: &mut Fields) -> Result<Asked, ReadError>
    ensures { ReadsInMemory (op_case (λ p. Asked.Op (Op.Read p.0.0 p.0.1) p.1) (pair reads no_vector)) (λ asked. asked) fields.old result fields.new }
{
    let at = read_size(fields)?;
    let len = fields.u16_in(0, 4_096)?;
    Ok(without_seen(Op::Read { at, len }))
}

fn read_write(alloc: Global, fields: &mut Fields) -> Result<Asked, ReadError>
    ensures { ReadsInMemory (op_case (λ p. Asked.Op (Op.Write p.0.0 p.0.1) p.1) (pair writes no_vector)) (λ asked. asked) fields.old result fields.new }
{
    let at = fields.u32_in(0, FILE_BYTES as u32)?;
    let most = (FILE_BYTES as u32 - at).min(4_096) as u16;
    let len = fields.u16_in(1, most)?;
    let bytes = fields.slice(len as u32)?;
    let bytes = Bytes::from_slice(alloc, bytes)?;
    Ok(without_seen(Op::Write { at, bytes }))
}

fn read_probe(alloc: Global, fields: &mut Fields) -> Result<Asked, ReadError>
    ensures { ReadsInMemory (op_case (λ p. Asked.Op (Op.Probe p.0) p.1) (pair components no_vector)) (λ asked. asked) fields.old result fields.new }
{
    let name = read_component(alloc, fields)?;
    Ok(without_seen(Op::Probe { name }))
}

fn read_find(alloc: Global, fields: &mut Fields) -> Result<Asked, ReadError>
    ensures { ReadsInMemory (op_case (λ p. Asked.Op (Op.Find p.0) p.1) (pair components no_vector)) (λ asked. asked) fields.old result fields.new }
{
    let component = read_component(alloc, fields)?;
    Ok(without_seen(Op::Find { component }))
}

fn read_cut(fields: &mut Fields) -> Result<Asked, ReadError>
    ensures { ReadsInMemory (op_case (λ p. Asked.Op (Op.Cut p.0) p.1) (pair sizes no_vector)) (λ asked. asked) fields.old result fields.new }
{
    let len = read_size(fields)?;
    Ok(without_seen(Op::Cut { len }))
}

/// A read of bytes that the asking site has.
fn read_held(fields: &mut Fields) -> Result<Asked, ReadError>
    ensures { ReadsInMemory (op_case (λ p. Asked.Held p.0 p.1) reads) (λ asked. asked) fields.old result fields.new }
{
    let at = read_size(fields)?;
    let len = fields.u16_in(0, 4_096)?;
    Ok(Asked::Held { at, len })
}

/// What is asked of an instance.
pub fn read_op(alloc: Global, fields: &mut Fields) -> Result<Asked, ReadError>
    ensures { ReadsInMemory ops (λ asked. asked) fields.old result fields.new }
{
    let start = fields.at();
    let number = fields.get_u8()?;
    match number {
        1 => read_probe(alloc, fields),
        2 => read_find(alloc, fields),
        3 => read_insert(alloc, fields),
        4 => read_remove(alloc, fields),
        5 => read_rename(alloc, fields),
        6 => Ok(without_seen(Op::Empty)),
        7 => read_read(fields),
        8 => read_write(alloc, fields),
        9 => read_cut(fields),
        10 => Ok(without_seen(Op::Commit)),
        11 => Ok(without_seen(Op::Abort)),
        12 => Ok(without_seen(Op::Mend)),
        13 => read_held(fields),
        _ => Err(ReadError::Field(FieldFault::Range { at: start })),
    }
}

fn number_of(op: &Op) -> u8
    ensures { result ≡ op_number op.now }
{
    match op {
        Op::Probe { .. } => 1,
        Op::Find { .. } => 2,
        Op::Insert { .. } => 3,
        Op::Remove { .. } => 4,
        Op::Rename { .. } => 5,
        Op::Empty => 6,
        Op::Read { .. } => 7,
        Op::Write { .. } => 8,
        Op::Cut { .. } => 9,
        Op::Commit => 10,
        Op::Abort => 11,
        Op::Mend => 12,
    }
}

fn put_insert(out: &mut Bytes, name: &Bytes, ino: u16, kind: Kind) -> Result<(), NoMemory>
    requires { length name.now < 2 ^ 8 }
    ensures { OnOk result (out.new ≡ out.old ++ inserts.spell (name.now, (ino, kind))) }
{
    put_short(out, name)?;
    put_u16(out, ino)?;
    put_kind(out, kind)
}

fn put_remove(out: &mut Bytes, name: &Bytes, ino: u16, seen: &Vector<SITES>) -> Result<(), NoMemory>
    requires { length name.now < 2 ^ 8 }
    ensures { OnOk result (out.new ≡ out.old ++ (pair (pair names inodes) vectors).spell ((name.now, ino), seen.now)) }
{
    put_short(out, name)?;
    put_u16(out, ino)?;
    put_vector(out, seen)
}

fn put_rename(out: &mut Bytes, component: &Bytes, name: &Bytes) -> Result<(), NoMemory>
    requires component { length component.now < 2 ^ 8 }
    requires name { length name.now < 2 ^ 8 }
    ensures { OnOk result (out.new ≡ out.old ++ (pair components names).spell (component.now, name.now)) }
{
    put_short(out, component)?;
    put_short(out, name)
}

fn put_read(out: &mut Bytes, at: u32, len: u16) -> Result<(), NoMemory>
    ensures { OnOk result (out.new ≡ out.old ++ reads.spell (at, len)) }
{
    put_u32(out, at)?;
    put_u16(out, len)
}

fn put_write(out: &mut Bytes, at: u32, bytes: &Bytes) -> Result<(), NoMemory>
    requires { length bytes.now < 2 ^ 16 }
    ensures { OnOk result (out.new ≡ out.old ++ writes.spell (at, bytes.now)) }
{
    put_u32(out, at)?;
    put_data(out, bytes)
}

/// The fields behind the number.
fn put_fields(out: &mut Bytes, op: &Op, seen: &Vector<SITES>) -> Result<(), NoMemory>
    requires { IsInRange (seeing_fields op.now seen.now) }
    ensures { OnOk result (out.new ≡ out.old ++ bytes_of (seeing_fields op.now seen.now)) }
{
    match op {
        Op::Probe { name } => put_short(out, name),
        Op::Find { component } => put_short(out, component),
        Op::Insert { name, ino, kind } => put_insert(out, name, *ino, *kind),
        Op::Remove { name, ino } => put_remove(out, name, *ino, seen),
        Op::Rename { component, name } => put_rename(out, component, name),
        Op::Read { at, len } => put_read(out, *at, *len),
        Op::Write { at, bytes } => put_write(out, *at, bytes),
        Op::Cut { len } => put_u32(out, *len),
        Op::Empty => Ok(()),
        Op::Commit => Ok(()),
        Op::Abort => Ok(()),
        Op::Mend => Ok(()),
    }
}

pub fn put_op(out: &mut Bytes, op: &Op, seen: &Vector<SITES>) -> Result<(), NoMemory>
    requires { ops.Fits (Asked.Op op.now seen.now) }
    ensures { OnOk result (out.new ≡ out.old ++ ops.spell (Asked.Op op.now seen.now)) }
{
    put_u8(out, number_of(op))?;
    put_fields(out, op, seen)
}

/// A read of bytes that the asking site has.
pub fn put_held(out: &mut Bytes, at: u32, len: u16) -> Result<(), NoMemory>
    ensures { OnOk result (out.new ≡ out.old ++ ops.spell (Asked.Held at len)) }
{
    put_u8(out, 13)?;
    put_read(out, at, len)
}
