ghost use Rattle.std.specs.Prelude.{◌≡◌, ◌++◌, OnOk};
ghost use Rattle.field_codec.specs.Codec.{u16, pair};
ghost use Rattle.field_codec.specs.Reads.{Reads, ReadsInMemory};
ghost use Rattle.field_codec.specs.Shapes.{bytes_of, IsInRange};
ghost use Rattle.wire_fields.specs.Parts.{sites, processes, inodes, stamps, components};
ghost use Rattle.wire_fields.specs.Refusals.{refusal_number, refusal_fields, refusal_case, refusals};

use crate::{put_short, put_stamp, read_component, read_process, read_stamp};
use field_codec::{FieldFault, Fields, ReadError, put_u8, put_u16};
use locus_ids::sizes::{INODES, SITES};
use locus_ids::{Bytes, NoMemory, Refusal, Stamp};
use std::alloc::Global;

fn read_busy(fields: &mut Fields) -> Result<Refusal, FieldFault>
    ensures { Reads (refusal_case (λ p. Refusal.Busy p.0 p.1) (pair sites processes)) (λ why. why) fields.old result fields.new }
{
    let site = fields.u8_in(1, SITES as u8)?;
    let process = read_process(fields)?;
    Ok(Refusal::Busy { site, process })
}

fn read_conflict(fields: &mut Fields) -> Result<Refusal, FieldFault>
    ensures { Reads (refusal_case (λ p. Refusal.Conflict p.0 p.1) (pair stamps stamps)) (λ why. why) fields.old result fields.new }
{
    let a = read_stamp(fields)?;
    let b = read_stamp(fields)?;
    Ok(Refusal::Conflict { a, b })
}

fn read_ambiguous(fields: &mut Fields) -> Result<Refusal, FieldFault>
    ensures { Reads (refusal_case (λ p. Refusal.Ambiguous p.0 p.1) (pair inodes inodes)) (λ why. why) fields.old result fields.new }
{
    let a = fields.u16_in(1, INODES)?;
    let b = fields.u16_in(1, INODES)?;
    Ok(Refusal::Ambiguous { a, b })
}

fn read_no_space(fields: &mut Fields) -> Result<Refusal, FieldFault>
    ensures { Reads (refusal_case (λ p. Refusal.NoSpace p.0 p.1) (pair u16 u16)) (λ why. why) fields.old result fields.new }
{
    let needed = fields.get_u16()?;
    let free = fields.get_u16()?;
    Ok(Refusal::NoSpace { needed, free })
}

fn read_exists(fields: &mut Fields) -> Result<Refusal, FieldFault>
    ensures { Reads (refusal_case Refusal.Exists inodes) (λ why. why) fields.old result fields.new }
{
    let ino = fields.u16_in(1, INODES)?;
    Ok(Refusal::Exists { ino })
}

fn read_absent(alloc: Global, fields: &mut Fields) -> Result<Refusal, ReadError>
    ensures { ReadsInMemory (refusal_case Refusal.Absent components) (λ why. why) fields.old result fields.new }
{
    let name = read_component(alloc, fields)?;
    Ok(Refusal::Absent { name })
}

fn read_not_empty(alloc: Global, fields: &mut Fields) -> Result<Refusal, ReadError>
    ensures { ReadsInMemory (refusal_case Refusal.NotEmpty components) (λ why. why) fields.old result fields.new }
{
    let name = read_component(alloc, fields)?;
    Ok(Refusal::NotEmpty { name })
}

pub fn read_refusal(alloc: Global, fields: &mut Fields) -> Result<Refusal, ReadError>
    ensures { ReadsInMemory refusals (λ why. why) fields.old result fields.new }
{
    let at = fields.at();
    let number = fields.get_u8()?;
    match number {
        1 => Ok(read_busy(fields)?),
        2 => read_absent(alloc, fields),
        5 => Ok(read_exists(fields)?),
        6 => read_not_empty(alloc, fields),
        7 => Ok(read_conflict(fields)?),
        8 => Ok(read_ambiguous(fields)?),
        9 => Ok(Refusal::NoStorage),
        14 => Ok(Refusal::TooLong),
        15 => Ok(read_no_space(fields)?),
        16 => Ok(Refusal::NoInode),
        20 => Ok(Refusal::Spent),
        21 => Ok(Refusal::NoConflict),
        _ => Err(ReadError::Field(FieldFault::Range { at })),
    }
}

fn number_of(why: &Refusal) -> u8
    ensures { result ≡ refusal_number why.now }
{
    match why {
        Refusal::Busy { .. } => 1,
        Refusal::Absent { .. } => 2,
        Refusal::NotDir { .. } => 3,
        Refusal::IsDir => 4,
        Refusal::Exists { .. } => 5,
        Refusal::NotEmpty { .. } => 6,
        Refusal::Conflict { .. } => 7,
        Refusal::Ambiguous { .. } => 8,
        Refusal::NoStorage => 9,
        Refusal::NoPartition => 10,
        Refusal::Changed { .. } => 11,
        Refusal::BadDescriptor => 12,
        Refusal::Stale { .. } => 13,
        Refusal::TooLong => 14,
        Refusal::NoSpace { .. } => 15,
        Refusal::NoInode => 16,
        Refusal::BadName => 17,
        Refusal::ReadOnly => 18,
        Refusal::NoDescriptor => 19,
        Refusal::Spent => 20,
        Refusal::NoConflict => 21,
    }
}

fn put_busy(out: &mut Bytes, site: u8, process: u8) -> Result<(), NoMemory>
    ensures { OnOk result (out.new ≡ out.old ++ (pair sites processes).spell (site, process)) }
{
    put_u8(out, site)?;
    put_u8(out, process)
}

fn put_conflict(out: &mut Bytes, a: Stamp, b: Stamp) -> Result<(), NoMemory>
    ensures { OnOk result (out.new ≡ out.old ++ (pair stamps stamps).spell (a, b)) }
{
    put_stamp(out, a)?;
    put_stamp(out, b)
}

fn put_numbers(out: &mut Bytes, a: u16, b: u16) -> Result<(), NoMemory>
    ensures { OnOk result (out.new ≡ out.old ++ (pair u16 u16).spell (a, b)) }
{
    put_u16(out, a)?;
    put_u16(out, b)
}

/// What a refusal says besides its number.
fn put_rest(out: &mut Bytes, why: &Refusal) -> Result<(), NoMemory>
    requires { IsInRange (refusal_fields why.now) }
    ensures { OnOk result (out.new ≡ out.old ++ bytes_of (refusal_fields why.now)) }
{
    match why {
        Refusal::Busy { site, process } => put_busy(out, *site, *process),
        Refusal::Absent { name } => put_short(out, name),
        Refusal::NotEmpty { name } => put_short(out, name),
        Refusal::Exists { ino } => put_u16(out, *ino),
        Refusal::Conflict { a, b } => put_conflict(out, *a, *b),
        Refusal::Ambiguous { a, b } => put_numbers(out, *a, *b),
        Refusal::NoSpace { needed, free } => put_numbers(out, *needed, *free),
        Refusal::NotDir { .. } => Ok(()),
        Refusal::IsDir => Ok(()),
        Refusal::NoStorage => Ok(()),
        Refusal::NoPartition => Ok(()),
        Refusal::Changed { .. } => Ok(()),
        Refusal::BadDescriptor => Ok(()),
        Refusal::Stale { .. } => Ok(()),
        Refusal::TooLong => Ok(()),
        Refusal::NoInode => Ok(()),
        Refusal::BadName => Ok(()),
        Refusal::ReadOnly => Ok(()),
        Refusal::NoDescriptor => Ok(()),
        Refusal::Spent => Ok(()),
        Refusal::NoConflict => Ok(()),
    }
}

pub fn put_refusal(out: &mut Bytes, why: &Refusal) -> Result<(), NoMemory>
    requires { refusals.Fits why.now }
    ensures { OnOk result (out.new ≡ out.old ++ refusals.spell why.now) }
{
    put_u8(out, number_of(why))?;
    put_rest(out, why)
}
