ghost use Rattle.std.specs.Prelude.{◌≤◌, Some, IfOk};
ghost use Rattle.locus_ids.specs.Sizes.{inodes_max};
ghost use Rattle.field_codec.specs.Codec.{pair};
ghost use Rattle.field_codec.specs.Shapes.{case_of};
ghost use Rattle.field_codec.specs.Reads.{Reads, ReadsInMemory};
ghost use Rattle.wire_fields.specs.Parts.{inodes, sizes, kinds, stamps};
ghost use Rattle.wire_fields.specs.Refusals.{refusals};
ghost use Rattle.wire_messages.specs.Answers.{made_versions, versions, copies_from, reported_copies, opened_fields, opened_answers, grants, granted_fields, granted_answers, made_fields, made_answers, close_fields, close_answers, contents, stats, look_fields, look_answers};

use field_codec::{FieldFault, Fields, ReadError};
use locus_ids::sizes::{INODES, SITES};
use locus_ids::{Bytes, Stamp};
use std::alloc::Global;
use version_vector::Vector;
use wire_messages::{
    CloseAnswer, Granted, LookAnswer, MadeVersion, OpenedAs, ReportedCopies, ReportedCopy,
};
use wire_parts::{
    read_kind, read_refusal, read_site, read_size, read_some_set, read_stamp, read_vector,
    read_vector_of,
};

/// A stamp and the vector that agrees with it.
pub fn read_version(fields: &mut Fields) -> Result<(Stamp, Vector<SITES>), FieldFault>
    ensures { Reads versions (λ version. version) fields.old result fields.new }
{
    let stamp = read_stamp(fields)?;
    let vector = read_vector_of(stamp, fields)?;
    Ok((stamp, vector))
}

fn read_made_version(fields: &mut Fields) -> Result<MadeVersion, FieldFault>
    ensures { Reads made_versions (λ version. version) fields.old result fields.new }
{
    let stamp = read_stamp(fields)?;
    let vector = read_vector_of(stamp, fields)?;
    let size = read_size(fields)?;
    Ok(MadeVersion {
        stamp,
        vector,
        size,
    })
}

/// A copy whose inode is not below this one.
fn read_copy(least: u16, fields: &mut Fields) -> Result<ReportedCopy, FieldFault>
    ensures read { Reads (copies_from least) (λ copy. copy) fields.old result fields.new }
    ensures ino { IfOk result (λ copy. copy.ino ≤ inodes_max) }
{
    let ino = fields.u16_in(least, INODES)?;
    let kind = read_kind(fields)?;
    let set = read_some_set(fields)?;
    let size = read_size(fields)?;
    let (stamp, vector) = read_version(fields)?;
    Ok(ReportedCopy {
        ino,
        kind,
        set,
        size,
        stamp,
        vector,
    })
}

/// A count, and so many copies whose inodes ascend.
pub fn read_copies(alloc: Global, fields: &mut Fields) -> Result<ReportedCopies, ReadError>
    ensures { ReadsInMemory reported_copies (λ copies. copies) fields.old result fields.new }
{
    let count = fields.get_u16()?;
    let mut copies = ReportedCopies::new(alloc);
    let mut least = 1;
    for _ in 0..count {
        let copy = read_copy(least, fields)?;
        let next = copy.ino + 1;
        copies.push(copy)?;
        least = next;
    }
    Ok(copies)
}

fn read_opened(fields: &mut Fields) -> Result<OpenedAs, ReadError>
    ensures { ReadsInMemory (case_of opened_fields (λ p. OpenedAs.Open p.0 p.1) (pair inodes sizes)) (λ answer. answer) fields.old result fields.new }
{
    let ino = fields.u16_in(1, INODES)?;
    let size = read_size(fields)?;
    Ok(OpenedAs::Open { ino, size })
}

fn read_not_opened(alloc: Global, fields: &mut Fields) -> Result<OpenedAs, ReadError>
    ensures { ReadsInMemory (case_of opened_fields OpenedAs.No refusals) (λ answer. answer) fields.old result fields.new }
{
    let why = read_refusal(alloc, fields)?;
    Ok(OpenedAs::No { why })
}

pub fn read_opened_answer(alloc: Global, fields: &mut Fields) -> Result<OpenedAs, ReadError>
    ensures { ReadsInMemory opened_answers (λ answer. answer) fields.old result fields.new }
{
    let at = fields.at();
    let number = fields.get_u8()?;
    match number {
        1 => read_opened(fields),
        2 => read_not_opened(alloc, fields),
        _ => Err(ReadError::Field(FieldFault::Range { at })),
    }
}

fn read_grant(fields: &mut Fields) -> Result<Granted, ReadError>
    ensures { ReadsInMemory (case_of granted_fields (λ p. Granted.Open p.0 p.1.0 p.1.1.0 p.1.1.1.0 p.1.1.1.1) grants) (λ answer. answer) fields.old result fields.new }
{
    let ss = read_site(fields)?;
    let ino = fields.u16_in(1, INODES)?;
    let size = read_size(fields)?;
    let stamp = read_stamp(fields)?;
    let vector = read_vector(fields)?;
    Ok(Granted::Open {
        ss,
        ino,
        size,
        stamp,
        vector,
    })
}

fn read_not_granted(alloc: Global, fields: &mut Fields) -> Result<Granted, ReadError>
    ensures { ReadsInMemory (case_of granted_fields Granted.No refusals) (λ answer. answer) fields.old result fields.new }
{
    let why = read_refusal(alloc, fields)?;
    Ok(Granted::No { why })
}

pub fn read_granted_answer(alloc: Global, fields: &mut Fields) -> Result<Granted, ReadError>
    ensures { ReadsInMemory granted_answers (λ answer. answer) fields.old result fields.new }
{
    let at = fields.at();
    let number = fields.get_u8()?;
    match number {
        1 => read_grant(fields),
        2 => read_not_granted(alloc, fields),
        _ => Err(ReadError::Field(FieldFault::Range { at })),
    }
}

fn read_made(fields: &mut Fields) -> Result<Option<MadeVersion>, FieldFault>
    ensures { Reads (case_of made_fields (λ v. Some v) made_versions) (λ answer. answer) fields.old result fields.new }
{
    let version = read_made_version(fields)?;
    Ok(Some(version))
}

/// The version that an instance made, if it made one.
pub fn read_made_answer(fields: &mut Fields) -> Result<Option<MadeVersion>, FieldFault>
    ensures { Reads made_answers (λ answer. answer) fields.old result fields.new }
{
    let at = fields.at();
    let number = fields.get_u8()?;
    match number {
        0 => Ok(None),
        1 => read_made(fields),
        _ => Err(FieldFault::Range { at }),
    }
}

fn read_closed(fields: &mut Fields) -> Result<CloseAnswer, ReadError>
    ensures { ReadsInMemory (case_of close_fields CloseAnswer.Made stamps) (λ answer. answer) fields.old result fields.new }
{
    let stamp = read_stamp(fields)?;
    Ok(CloseAnswer::Made { stamp })
}

fn read_not_closed(alloc: Global, fields: &mut Fields) -> Result<CloseAnswer, ReadError>
    ensures { ReadsInMemory (case_of close_fields CloseAnswer.No refusals) (λ answer. answer) fields.old result fields.new }
{
    let why = read_refusal(alloc, fields)?;
    Ok(CloseAnswer::No { why })
}

pub fn read_close_answer(alloc: Global, fields: &mut Fields) -> Result<CloseAnswer, ReadError>
    ensures { ReadsInMemory close_answers (λ answer. answer) fields.old result fields.new }
{
    let at = fields.at();
    let number = fields.get_u8()?;
    match number {
        0 => Ok(CloseAnswer::Nothing),
        1 => read_closed(fields),
        2 => read_not_closed(alloc, fields),
        _ => Err(ReadError::Field(FieldFault::Range { at })),
    }
}

fn read_found(fields: &mut Fields) -> Result<LookAnswer, ReadError>
    ensures { ReadsInMemory (case_of look_fields (λ p. LookAnswer.Found p.0 p.1) (pair inodes kinds)) (λ answer. answer) fields.old result fields.new }
{
    let ino = fields.u16_in(1, INODES)?;
    let kind = read_kind(fields)?;
    Ok(LookAnswer::Found { ino, kind })
}

fn read_content(alloc: Global, fields: &mut Fields) -> Result<LookAnswer, ReadError>
    ensures { ReadsInMemory (case_of look_fields LookAnswer.Content contents) (λ answer. answer) fields.old result fields.new }
{
    let length = read_size(fields)?;
    let content = fields.slice(length)?;
    let bytes = Bytes::from_slice(alloc, content)?;
    Ok(LookAnswer::Content { bytes })
}

fn read_stat(fields: &mut Fields) -> Result<LookAnswer, ReadError>
    ensures { ReadsInMemory (case_of look_fields (λ p. LookAnswer.Stat p.0 p.1.0 p.1.1) stats) (λ answer. answer) fields.old result fields.new }
{
    let kind = read_kind(fields)?;
    let size = read_size(fields)?;
    let stamp = read_stamp(fields)?;
    Ok(LookAnswer::Stat { kind, size, stamp })
}

fn read_not_looked(alloc: Global, fields: &mut Fields) -> Result<LookAnswer, ReadError>
    ensures { ReadsInMemory (case_of look_fields LookAnswer.No refusals) (λ answer. answer) fields.old result fields.new }
{
    let why = read_refusal(alloc, fields)?;
    Ok(LookAnswer::No { why })
}

pub fn read_look_answer(alloc: Global, fields: &mut Fields) -> Result<LookAnswer, ReadError>
    ensures { ReadsInMemory look_answers (λ answer. answer) fields.old result fields.new }
{
    let at = fields.at();
    let number = fields.get_u8()?;
    match number {
        1 => read_found(fields),
        2 => read_content(alloc, fields),
        3 => read_stat(fields),
        4 => Ok(LookAnswer::Moved),
        5 => read_not_looked(alloc, fields),
        _ => Err(ReadError::Field(FieldFault::Range { at })),
    }
}
