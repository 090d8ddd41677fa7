ghost use Rattle.std.specs.Prelude.{◌≡◌, ◌++◌, OnOk};
ghost use Rattle.field_codec.specs.Codec.{pair, u16};
ghost use Rattle.field_codec.specs.Reads.{ReadsInMemory};
ghost use Rattle.field_codec.specs.Shapes.{bytes_of, IsInRange};
ghost use Rattle.wire_fields.specs.Parts.{inodes, kinds, stamps, components};
ghost use Rattle.wire_fields.specs.Refusals.{refusals};
ghost use Rattle.wire_fields.specs.Operations.{value_number, value_fields, value_case, values, data_bytes, outcome_number, outcome_fields, outcome_case, outcomes, what_number, what_fields, what_case, whats};

use crate::{
    put_data, put_kind, put_refusal, put_short, put_stamp, read_component, read_data, read_kind,
    read_refusal, read_stamp,
};
use field_codec::{FieldFault, Fields, ReadError, put_u8, put_u16};
use locus_ids::sizes::INODES;
use locus_ids::{Bytes, Kind, NoMemory};
use std::alloc::Global;
use trace_book::{Outcome, What};
use wire_fields::Gave;

fn as_outcome(outcome: Outcome) -> Gave
    ensures { result ≡ Gave.Outcome outcome }
{
    Gave::Outcome { outcome }
}

fn read_found(fields: &mut Fields) -> Result<Gave, ReadError>
    ensures { ReadsInMemory (value_case (λ p. Gave.Outcome (Outcome.Found p.0 p.1)) (pair inodes kinds)) (λ gave. gave) fields.old result fields.new }
{
    let ino = fields.u16_in(1, INODES)?;
    let kind = read_kind(fields)?;
    Ok(as_outcome(Outcome::Found { ino, kind }))
}

fn read_given(alloc: Global, fields: &mut Fields) -> Result<Gave, ReadError>
    ensures { ReadsInMemory (value_case (λ bytes. Gave.Outcome (Outcome.Data bytes)) data_bytes) (λ gave. gave) fields.old result fields.new }
{
    let bytes = read_data(alloc, fields)?;
    Ok(as_outcome(Outcome::Data { bytes }))
}

fn read_committed(fields: &mut Fields) -> Result<Gave, ReadError>
    ensures { ReadsInMemory (value_case (λ stamp. Gave.Outcome (Outcome.Committed stamp)) stamps) (λ gave. gave) fields.old result fields.new }
{
    let stamp = read_stamp(fields)?;
    Ok(as_outcome(Outcome::Committed { stamp }))
}

/// So many bytes, which the asking site has.
fn read_as_held(fields: &mut Fields) -> Result<Gave, ReadError>
    ensures { ReadsInMemory (value_case Gave.AsHeld u16) (λ gave. gave) fields.old result fields.new }
{
    let len = fields.get_u16()?;
    Ok(Gave::AsHeld { len })
}

/// What was given without a refusal.
fn read_value(alloc: Global, fields: &mut Fields) -> Result<Gave, ReadError>
    ensures { ReadsInMemory values (λ gave. gave) fields.old result fields.new }
{
    let at = fields.at();
    let number = fields.get_u8()?;
    match number {
        0 => Ok(as_outcome(Outcome::Done)),
        1 => read_given(alloc, fields),
        2 => read_found(fields),
        3 => read_committed(fields),
        4 => read_as_held(fields),
        _ => Err(ReadError::Field(FieldFault::Range { at })),
    }
}

fn read_refused(alloc: Global, fields: &mut Fields) -> Result<Gave, ReadError>
    ensures { ReadsInMemory (outcome_case (λ why. Gave.Outcome (Outcome.No why)) refusals) (λ gave. gave) fields.old result fields.new }
{
    let why = read_refusal(alloc, fields)?;
    Ok(as_outcome(Outcome::No { why }))
}

pub fn read_outcome(alloc: Global, fields: &mut Fields) -> Result<Gave, ReadError>
    ensures { ReadsInMemory outcomes (λ gave. gave) fields.old result fields.new }
{
    let at = fields.at();
    let number = fields.get_u8()?;
    match number {
        1 => read_value(alloc, fields),
        2 => read_refused(alloc, fields),
        _ => Err(ReadError::Field(FieldFault::Range { at })),
    }
}

fn number_of(outcome: &Outcome) -> u8
    ensures { result ≡ value_number (Gave.Outcome outcome.now) }
{
    match outcome {
        Outcome::Done => 0,
        Outcome::Data { .. } => 1,
        Outcome::Found { .. } => 2,
        Outcome::Committed { .. } => 3,
        Outcome::No { .. } => 255,
    }
}

fn put_found(out: &mut Bytes, ino: u16, kind: Kind) -> Result<(), NoMemory>
    ensures { OnOk result (out.new ≡ out.old ++ (pair inodes kinds).spell (ino, kind)) }
{
    put_u16(out, ino)?;
    put_kind(out, kind)
}

fn put_value_fields(out: &mut Bytes, outcome: &Outcome) -> Result<(), NoMemory>
    requires { IsInRange (value_fields (Gave.Outcome outcome.now)) }
    ensures { OnOk result (out.new ≡ out.old ++ bytes_of (value_fields (Gave.Outcome outcome.now))) }
{
    match outcome {
        Outcome::Data { bytes } => put_data(out, bytes),
        Outcome::Found { ino, kind } => put_found(out, *ino, *kind),
        Outcome::Committed { stamp } => put_stamp(out, *stamp),
        Outcome::Done => Ok(()),
        Outcome::No { .. } => Ok(()),
    }
}

fn put_value(out: &mut Bytes, outcome: &Outcome) -> Result<(), NoMemory>
    requires { values.Fits (Gave.Outcome outcome.now) }
    ensures { OnOk result (out.new ≡ out.old ++ values.spell (Gave.Outcome outcome.now)) }
{
    put_u8(out, number_of(outcome))?;
    put_value_fields(out, outcome)
}

/// 2 for a refusal, and 1 for a value.
fn side_of(outcome: &Outcome) -> u8
    ensures { result ≡ outcome_number (Gave.Outcome outcome.now) }
{
    match outcome {
        Outcome::No { .. } => 2,
        _ => 1,
    }
}

fn put_side(out: &mut Bytes, outcome: &Outcome) -> Result<(), NoMemory>
    requires { IsInRange (outcome_fields (Gave.Outcome outcome.now)) }
    ensures { OnOk result (out.new ≡ out.old ++ bytes_of (outcome_fields (Gave.Outcome outcome.now))) }
{
    match outcome {
        Outcome::No { why } => put_refusal(out, why),
        Outcome::Done => put_value(out, outcome),
        Outcome::Data { .. } => put_value(out, outcome),
        Outcome::Found { .. } => put_value(out, outcome),
        Outcome::Committed { .. } => put_value(out, outcome),
    }
}

pub fn put_outcome(out: &mut Bytes, outcome: &Outcome) -> Result<(), NoMemory>
    requires { outcomes.Fits (Gave.Outcome outcome.now) }
    ensures { OnOk result (out.new ≡ out.old ++ outcomes.spell (Gave.Outcome outcome.now)) }
{
    put_u8(out, side_of(outcome))?;
    put_side(out, outcome)
}

/// So many bytes, which the asking site has.
pub fn put_as_held(out: &mut Bytes, len: u16) -> Result<(), NoMemory>
    ensures { OnOk result (out.new ≡ out.old ++ outcomes.spell (Gave.AsHeld len)) }
{
    put_u8(out, 1)?;
    put_u8(out, 4)?;
    put_u16(out, len)
}

fn read_asked_name(alloc: Global, fields: &mut Fields) -> Result<What, ReadError>
    ensures { ReadsInMemory (what_case What.Name components) (λ what. what) fields.old result fields.new }
{
    let component = read_component(alloc, fields)?;
    Ok(What::Name { component })
}

fn read_asked_whole(fields: &mut Fields) -> Result<What, ReadError>
    ensures { ReadsInMemory (what_case What.Whole stamps) (λ what. what) fields.old result fields.new }
{
    let stamp = read_stamp(fields)?;
    Ok(What::Whole { stamp })
}

/// What a Look asks.
pub fn read_what(alloc: Global, fields: &mut Fields) -> Result<What, ReadError>
    ensures { ReadsInMemory whats (λ what. what) fields.old result fields.new }
{
    let at = fields.at();
    let number = fields.get_u8()?;
    match number {
        1 => read_asked_name(alloc, fields),
        2 => Ok(What::List),
        3 => Ok(What::Stat),
        4 => read_asked_whole(fields),
        _ => Err(ReadError::Field(FieldFault::Range { at })),
    }
}

fn asked_number(what: &What) -> u8
    ensures { result ≡ what_number what.now }
{
    match what {
        What::Name { .. } => 1,
        What::List => 2,
        What::Stat => 3,
        What::Whole { .. } => 4,
    }
}

fn put_asked(out: &mut Bytes, what: &What) -> Result<(), NoMemory>
    requires { IsInRange (what_fields what.now) }
    ensures { OnOk result (out.new ≡ out.old ++ bytes_of (what_fields what.now)) }
{
    match what {
        What::Name { component } => put_short(out, component),
        What::Whole { stamp } => put_stamp(out, *stamp),
        What::List => Ok(()),
        What::Stat => Ok(()),
    }
}

pub fn put_what(out: &mut Bytes, what: &What) -> Result<(), NoMemory>
    requires { whats.Fits what.now }
    ensures { OnOk result (out.new ≡ out.old ++ whats.spell what.now) }
{
    put_u8(out, asked_number(what))?;
    put_asked(out, what)
}
