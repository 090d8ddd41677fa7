ghost use Rattle.std.specs.Prelude.{◌≡◌, ◌<◌, ◌≤◌, ◌^◌, ◌++◌, length, OnOk, IfOk, None};
ghost use Rattle.std.specs.List.{flat_map};
ghost use Rattle.locus_ids.specs.Sizes.{sites_max};
ghost use Rattle.field_codec.specs.Reads.{Reads, ReadsInMemory};
ghost use Rattle.wire_fields.specs.Parts.{site_after, is_after, stamps_after, stamps, ascending_stamps};

use field_codec::{FieldFault, Fields, ReadError, put_u8, put_u32};
use locus_ids::sizes::SITES;
use locus_ids::{Bytes, NoMemory, Stamp, Stamps};
use std::alloc::Global;

/// The least site that a stamp after this one may have.
fn site_after(last: Option<Stamp>) -> u8
    ensures { result ≡ site_after last }
{
    match last {
        Some(stamp) => stamp.site,
        None => 0,
    }
}

/// A stamp is 0.0, or both numbers are above 0.
fn is_stamp(stamp: Stamp) -> bool
    ensures { result ≡ is_after None stamp.site stamp.n }
{
    if stamp.site == 0 {
        stamp.n == 0
    } else {
        0 < stamp.n
    }
}

/// The stamp, whose site is not below that of the last one, is one that may follow it.
fn is_after(last: Option<Stamp>, stamp: Stamp) -> bool
    ensures { result ≡ is_after last stamp.site stamp.n }
{
    match last {
        Some(before) => is_stamp(stamp) && (before.site < stamp.site || before.n < stamp.n),
        None => is_stamp(stamp),
    }
}

fn read_stamp_after(last: Option<Stamp>, fields: &mut Fields) -> Result<Stamp, FieldFault>
    ensures read { Reads (stamps_after last) (λ stamp. stamp) fields.old result fields.new }
    ensures site { IfOk result (λ stamp. stamp.site ≤ sites_max) }
{
    let site = fields.u8_in(site_after(last), SITES as u8)?;
    let at = fields.at();
    let n = fields.get_u32()?;
    let stamp = Stamp { site, n };
    if is_after(last, stamp) {
        Ok(stamp)
    } else {
        Err(FieldFault::Range { at })
    }
}

pub fn read_stamp(fields: &mut Fields) -> Result<Stamp, FieldFault>
    ensures read { Reads stamps (λ stamp. stamp) fields.old result fields.new }
    ensures site { IfOk result (λ stamp. stamp.site ≤ sites_max) }
{
    read_stamp_after(None, fields)
}

pub fn put_stamp(out: &mut Bytes, stamp: Stamp) -> Result<(), NoMemory>
    ensures { OnOk result (out.new ≡ out.old ++ stamps.spell stamp) }
{
    put_u8(out, stamp.site)?;
    put_u32(out, stamp.n)
}

/// A count, and so many stamps that ascend.
pub fn read_ascending_stamps(alloc: Global, fields: &mut Fields) -> Result<Stamps, ReadError>
    ensures { ReadsInMemory ascending_stamps (λ list. list) fields.old result fields.new }
{
    let count = fields.get_u8()?;
    let mut list = Stamps::new(alloc);
    let mut last = None;
    for _ in 0..count {
        let stamp = read_stamp_after(last, fields)?;
        list.push(stamp)?;
        last = Some(stamp);
    }
    Ok(list)
}

pub fn put_ascending_stamps(out: &mut Bytes, list: &Stamps) -> Result<(), NoMemory>
    requires { length list.now < 2 ^ 8 }
    ensures { OnOk result (out.new ≡ out.old ++ ascending_stamps.spell list.now) }
{
    put_u8(out, list.len() as u8)?;
    put_stamps(out, list.as_slice())
}

fn put_stamps(out: &mut Bytes, list: &[Stamp]) -> Result<(), NoMemory>
    ensures { OnOk result (out.new ≡ out.old ++ flat_map stamps.spell list.now) }
{
    for stamp in list {
        put_stamp(out, *stamp)?;
    }
    Ok(())
}
