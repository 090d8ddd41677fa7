ghost use Rattle.std.specs.Prelude.{◌≡◌, ◌<◌, ◌^◌, ◌++◌, length, OnOk};
ghost use Rattle.field_codec.specs.Codec.{u8};
ghost use Rattle.field_codec.specs.Shapes.{counted_bytes};
ghost use Rattle.field_codec.specs.Reads.{ReadsInMemory};
ghost use Rattle.wire_fields.specs.Parts.{names, components};
ghost use Rattle.wire_fields.specs.Operations.{data_bytes};

use crate::{is_component, is_name};
use field_codec::{FieldFault, Fields, ReadError, put_slice, put_u8, put_u16};
use locus_ids::{Bytes, NoMemory};
use std::alloc::Global;

/// A plain name behind its length.
pub fn read_name(alloc: Global, fields: &mut Fields) -> Result<Bytes, ReadError>
    ensures { ReadsInMemory names (λ name. name) fields.old result fields.new }
{
    let at = fields.at();
    let length = fields.u8_in(1, 60)?;
    let name = fields.slice(length as u32)?;
    if !is_name(name) {
        return Err(ReadError::Field(FieldFault::Range { at }));
    }
    let kept = Bytes::from_slice(alloc, name)?;
    Ok(kept)
}

/// A component of a path behind its length.
pub fn read_component(alloc: Global, fields: &mut Fields) -> Result<Bytes, ReadError>
    ensures { ReadsInMemory components (λ component. component) fields.old result fields.new }
{
    let at = fields.at();
    let length = fields.u8_in(1, 65)?;
    let component = fields.slice(length as u32)?;
    if !is_component(component) {
        return Err(ReadError::Field(FieldFault::Range { at }));
    }
    let kept = Bytes::from_slice(alloc, component)?;
    Ok(kept)
}

/// A length of one byte, and the bytes.
pub fn put_short(out: &mut Bytes, text: &Bytes) -> Result<(), NoMemory>
    requires { length text.now < 2 ^ 8 }
    ensures { OnOk result (out.new ≡ out.old ++ (counted_bytes u8).spell text.now) }
{
    put_u8(out, text.len() as u8)?;
    put_slice(out, text.as_slice())
}

/// A length of two bytes, and the bytes.
pub fn put_data(out: &mut Bytes, bytes: &Bytes) -> Result<(), NoMemory>
    requires { length bytes.now < 2 ^ 16 }
    ensures { OnOk result (out.new ≡ out.old ++ data_bytes.spell bytes.now) }
{
    put_u16(out, bytes.len() as u16)?;
    put_slice(out, bytes.as_slice())
}

pub fn read_data(alloc: Global, fields: &mut Fields) -> Result<Bytes, ReadError>
    ensures { ReadsInMemory data_bytes (λ bytes. bytes) fields.old result fields.new }
{
    let length = fields.get_u16()?;
    let bytes = fields.slice(length as u32)?;
    let kept = Bytes::from_slice(alloc, bytes)?;
    Ok(kept)
}
