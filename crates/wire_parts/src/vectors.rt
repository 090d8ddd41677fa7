ghost use Rattle.std.specs.Prelude.{◌≡◌, ◌≤◌, ◌==◌, ◌++◌, OnOk, length};
ghost use Rattle.std.specs.List.{list_all, flat_map};
ghost use Rattle.locus_ids.specs.Sizes.{sites_max};
ghost use Rattle.field_codec.specs.Codec.{u32};
ghost use Rattle.field_codec.specs.Shapes.{repeated};
ghost use Rattle.field_codec.specs.Reads.{Reads};
ghost use Rattle.wire_fields.specs.Parts.{agrees, vectors, vectors_of};

use field_codec::{FieldFault, Fields, put_u32};
use locus_ids::sizes::SITES;
use locus_ids::{Bytes, NoMemory, Stamp};
use version_vector::Vector;

fn read_counters(fields: &mut Fields) -> Result<[u32; SITES], FieldFault>
    ensures { Reads (repeated sites_max u32) (λ counters. counters) fields.old result fields.new }
{
    let mut counters = [0; SITES];
    for i in 0..SITES {
        counters[i] = fields.get_u32()?;
    }
    Ok(counters)
}

pub fn read_vector(fields: &mut Fields) -> Result<Vector<SITES>, FieldFault>
    ensures { Reads vectors (λ vector. vector) fields.old result fields.new }
{
    let counters = read_counters(fields)?;
    Ok(Vector::from_parts(counters))
}

fn put_counters(out: &mut Bytes, counters: &[u32]) -> Result<(), NoMemory>
    ensures { OnOk result (out.new ≡ out.old ++ flat_map u32.spell counters.now) }
{
    for counter in counters {
        put_u32(out, *counter)?;
    }
    Ok(())
}

pub fn put_vector(out: &mut Bytes, vector: &Vector<SITES>) -> Result<(), NoMemory>
    ensures { OnOk result (out.new ≡ out.old ++ vectors.spell vector.now) }
{
    put_counters(out, &vector.parts())
}

fn are_zeros(counters: &[u32]) -> bool
    ensures { result ≡ list_all (λ n. n == 0) counters.now }
{
    counters.iter().all(|&n| n == 0)
}

/// The counter of the stamp's site is its number; for 0.0 all are 0.
pub fn agrees(stamp: Stamp, vector: &Vector<SITES>) -> bool
    requires { stamp.site ≤ sites_max }
    ensures { result ≡ agrees stamp vector.now }
{
    let counters = vector.parts();
    if stamp.site == 0 {
        return are_zeros(&counters);
    }
    counters[stamp.site as usize - 1] == stamp.n
}

/// A vector that agrees with the stamp.
pub fn read_vector_of(stamp: Stamp, fields: &mut Fields) -> Result<Vector<SITES>, FieldFault>
    requires { stamp.site ≤ sites_max }
    ensures { Reads (vectors_of stamp) (λ vector. vector) fields.old result fields.new }
{
    let at = fields.at();
    let vector = read_vector(fields)?;
    if agrees(stamp, &vector) {
        Ok(vector)
    } else {
        Err(FieldFault::Range { at })
    }
}
