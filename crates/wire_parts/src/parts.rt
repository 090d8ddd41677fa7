ghost use Rattle.std.specs.Prelude.{◌≡◌, ◌++◌, OnOk};
ghost use Rattle.field_codec.specs.Reads.{Reads};
ghost use Rattle.wire_fields.specs.Parts.{sites, numbers, processes, sizes, epochs, instances, files, files_or_new, any_set, some_set, kinds, kind_number};

use field_codec::{FieldFault, Fields, put_u8, put_u16, put_u32};
use locus_ids::sizes::{FILE_BYTES, INODES, SITES};
use locus_ids::{Bytes, EpochId, FileId, Kind, NoMemory, Serial, SiteId, Sites};

pub fn read_site(fields: &mut Fields) -> Result<SiteId, FieldFault>
    ensures { Reads sites (λ site. site) fields.old result fields.new }
{
    let at = fields.at();
    let n = fields.u8_in(1, SITES as u8)?;
    SiteId::new(n).ok_or(FieldFault::Range { at })
}

pub fn put_site(out: &mut Bytes, site: SiteId) -> Result<(), NoMemory>
    ensures { OnOk result (out.new ≡ out.old ++ sites.spell site) }
{
    put_u8(out, site.get())
}

/// A number that is not 0.
pub fn read_number(fields: &mut Fields) -> Result<u32, FieldFault>
    ensures { Reads numbers (λ n. n) fields.old result fields.new }
{
    fields.u32_in(1, u32::MAX)
}

pub fn read_process(fields: &mut Fields) -> Result<u8, FieldFault>
    ensures { Reads processes (λ n. n) fields.old result fields.new }
{
    fields.u8_in(0, 8)
}

pub fn read_size(fields: &mut Fields) -> Result<u32, FieldFault>
    ensures { Reads sizes (λ n. n) fields.old result fields.new }
{
    fields.u32_in(0, FILE_BYTES as u32)
}

pub fn read_epoch(fields: &mut Fields) -> Result<EpochId, FieldFault>
    ensures { Reads epochs (λ epoch. epoch) fields.old result fields.new }
{
    let number = read_number(fields)?;
    let site = fields.u8_in(1, SITES as u8)?;
    let boot = read_number(fields)?;
    Ok(EpochId { number, site, boot })
}

pub fn put_epoch(out: &mut Bytes, epoch: EpochId) -> Result<(), NoMemory>
    ensures { OnOk result (out.new ≡ out.old ++ epochs.spell epoch) }
{
    put_u32(out, epoch.number)?;
    put_u8(out, epoch.site)?;
    put_u32(out, epoch.boot)
}

pub fn read_instance(fields: &mut Fields) -> Result<Serial, FieldFault>
    ensures { Reads instances (λ inst. inst) fields.old result fields.new }
{
    let us = fields.u8_in(1, SITES as u8)?;
    let serial = read_number(fields)?;
    Ok(Serial { us, serial })
}

pub fn put_instance(out: &mut Bytes, inst: Serial) -> Result<(), NoMemory>
    ensures { OnOk result (out.new ≡ out.old ++ instances.spell inst) }
{
    put_u8(out, inst.us)?;
    put_u32(out, inst.serial)
}

pub fn read_file(fields: &mut Fields) -> Result<FileId, FieldFault>
    ensures { Reads files (λ file. file) fields.old result fields.new }
{
    let group = fields.get_u8()?;
    let ino = fields.u16_in(1, INODES)?;
    Ok(FileId { group, ino })
}

/// A file, or, with inode 0, one that is still to be made.
pub fn read_file_or_new(fields: &mut Fields) -> Result<FileId, FieldFault>
    ensures { Reads files_or_new (λ file. file) fields.old result fields.new }
{
    let group = fields.get_u8()?;
    let ino = fields.u16_in(0, INODES)?;
    Ok(FileId { group, ino })
}

pub fn put_file(out: &mut Bytes, file: FileId) -> Result<(), NoMemory>
    ensures { OnOk result (out.new ≡ out.old ++ files.spell file) }
{
    put_u8(out, file.group)?;
    put_u16(out, file.ino)
}

pub fn read_any_set(fields: &mut Fields) -> Result<Sites, FieldFault>
    ensures { Reads any_set (λ set. set) fields.old result fields.new }
{
    let set = fields.get_u16()?;
    Ok(Sites(set))
}

pub fn read_some_set(fields: &mut Fields) -> Result<Sites, FieldFault>
    ensures { Reads some_set (λ set. set) fields.old result fields.new }
{
    let set = fields.u16_in(1, u16::MAX)?;
    Ok(Sites(set))
}

pub fn put_set(out: &mut Bytes, set: Sites) -> Result<(), NoMemory>
    ensures { OnOk result (out.new ≡ out.old ++ any_set.spell set) }
{
    put_u16(out, set.0)
}

pub fn read_kind(fields: &mut Fields) -> Result<Kind, FieldFault>
    ensures { Reads kinds (λ kind. kind) fields.old result fields.new }
{
    let at = fields.at();
    match fields.get_u8()? {
        1 => Ok(Kind::File),
        2 => Ok(Kind::Dir),
        _ => Err(FieldFault::Range { at }),
    }
}

/// The number of a kind.
fn number_of(kind: Kind) -> u8
    ensures { result ≡ kind_number kind }
{
    match kind {
        Kind::File => 1,
        Kind::Dir => 2,
    }
}

pub fn put_kind(out: &mut Bytes, kind: Kind) -> Result<(), NoMemory>
    ensures { OnOk result (out.new ≡ out.old ++ kinds.spell kind) }
{
    put_u8(out, number_of(kind))
}
