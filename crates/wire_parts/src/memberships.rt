ghost use Rattle.std.specs.Prelude.{◌≡◌, ◌++◌, length, OnOk};
ghost use Rattle.field_codec.specs.Reads.{Reads};
ghost use Rattle.wire_fields.specs.Memberships.{entries_from, members, spelled_entries};

use crate::read_number;
use field_codec::{FieldFault, Fields, put_u8, put_u32};
use locus_ids::sizes::SITES;
use locus_ids::{Bytes, Members, NoMemory};

/// A count, and so many members whose sites ascend.
pub fn read_members(fields: &mut Fields) -> Result<Members, FieldFault>
    ensures { Reads members (λ list. list) fields.old result fields.new }
{
    let count = fields.get_u8()?;
    let mut boot = [0; SITES];
    let mut least = 1;
    for _ in 0..count {
        let site = fields.u8_in(least, SITES as u8)?;
        let number = read_number(fields)?;
        boot[site as usize - 1] = number;
        least = site + 1;
    }
    Ok(Members { boot })
}

/// How many of the sites are members.
fn count_of(boot: &[u32; SITES]) -> u8
    ensures { result ≡ length (entries_from 1 boot.now) }
{
    let mut count = 0;
    for i in 0..SITES {
        if boot[i] != 0 {
            count += 1;
        }
    }
    count
}

fn put_entries(out: &mut Bytes, boot: &[u32; SITES]) -> Result<(), NoMemory>
    ensures { OnOk result (out.new ≡ out.old ++ spelled_entries (entries_from 1 boot.now)) }
{
    for i in 0..SITES {
        if boot[i] != 0 {
            put_u8(out, i as u8 + 1)?;
            put_u32(out, boot[i])?;
        }
    }
    Ok(())
}

pub fn put_members(out: &mut Bytes, list: &Members) -> Result<(), NoMemory>
    ensures { OnOk result (out.new ≡ out.old ++ members.spell list.now) }
{
    put_u8(out, count_of(&list.boot))?;
    put_entries(out, &list.boot)
}
