ghost use Rattle.std.specs.Prelude.{◌≡◌, ◌<◌, ◌^◌, ◌++◌, ◌∷◌, false, length, OnOk};
ghost use Rattle.std.specs.List.{flat_map};
ghost use Rattle.field_codec.specs.Codec.{pair};
ghost use Rattle.field_codec.specs.Shapes.{bytes_of, IsInRange};
ghost use Rattle.wire_messages.specs.of_wire_fields.Parts.{inodes, sizes, kinds, kind_number};
ghost use Rattle.wire_messages.specs.Answers.{mode_number, modes, opening_numbers, openings, versions, made_versions, copies_from, reported_copies, opened_number, opened_fields, opened_answers, grants, granted_number, granted_fields, granted_answers, made_number, made_fields, made_answers, close_number, close_fields, close_answers, contents, stats, look_number, look_fields, look_answers};

use field_codec::{put_slice, put_u8, put_u16, put_u32};
use locus_ids::sizes::SITES;
use locus_ids::{Bytes, Kind, Mode, NoMemory, SiteId, Stamp};
use version_vector::Vector;
use wire_messages::{
    CloseAnswer, Granted, LookAnswer, MadeVersion, OpenedAs, Opening, ReportedCopies, ReportedCopy,
};
use wire_parts::{put_kind, put_refusal, put_set, put_site, put_stamp, put_vector};

fn mode_number(mode: Mode) -> u8
    ensures { result ≡ mode_number mode }
{
    match mode {
        Mode::Read => 1,
        Mode::Write => 2,
        Mode::Resolve => 3,
        Mode::Mend => 4,
        Mode::Make => 5,
    }
}

pub fn put_mode(out: &mut Bytes, mode: Mode) -> Result<(), NoMemory>
    ensures { OnOk result (out.new ≡ out.old ++ (modes false).spell mode) }
{
    put_u8(out, mode_number(mode))
}

fn put_opening_numbers(
    out: &mut Bytes,
    mode: u8,
    site: u8,
    set: u16,
    kind: u8,
) -> Result<(), NoMemory>
    ensures { OnOk result (out.new ≡ out.old ++ (opening_numbers false).spell (mode, (site, (set, kind)))) }
{
    put_u8(out, mode)?;
    put_u8(out, site)?;
    put_u16(out, set)?;
    put_u8(out, kind)
}

/// The number of a kind.
fn kind_number(kind: Kind) -> u8
    ensures { result ≡ kind_number kind }
{
    match kind {
        Kind::File => 1,
        Kind::Dir => 2,
    }
}

pub fn put_opening(out: &mut Bytes, how: &Opening) -> Result<(), NoMemory>
    ensures { OnOk result (out.new ≡ out.old ++ (openings false).spell how.now) }
{
    match how {
        Opening::Read => put_opening_numbers(out, 1, 0, 0, 0),
        Opening::Write => put_opening_numbers(out, 2, 0, 0, 0),
        Opening::Resolve { site } => put_opening_numbers(out, 3, *site, 0, 0),
        Opening::Mend => put_opening_numbers(out, 4, 0, 0, 0),
        Opening::Make { set, kind } => put_opening_numbers(out, 5, 0, set.0, kind_number(*kind)),
    }
}

pub fn put_version(out: &mut Bytes, stamp: Stamp, vector: &Vector<SITES>) -> Result<(), NoMemory>
    ensures { OnOk result (out.new ≡ out.old ++ versions.spell (stamp, vector.now)) }
{
    put_stamp(out, stamp)?;
    put_vector(out, vector)
}

fn put_made_version(out: &mut Bytes, version: &MadeVersion) -> Result<(), NoMemory>
    ensures { OnOk result (out.new ≡ out.old ++ made_versions.spell version.now) }
{
    put_stamp(out, version.stamp)?;
    put_vector(out, &version.vector)?;
    put_u32(out, version.size)
}

fn put_copy(out: &mut Bytes, copy: &ReportedCopy) -> Result<(), NoMemory>
    ensures { OnOk result (out.new ≡ out.old ++ (copies_from 1).spell copy.now) }
{
    put_u16(out, copy.ino)?;
    put_kind(out, copy.kind)?;
    put_set(out, copy.set)?;
    put_u32(out, copy.size)?;
    put_version(out, copy.stamp, &copy.vector)
}

fn put_each_copy(out: &mut Bytes, copies: &[ReportedCopy]) -> Result<(), NoMemory>
    ensures { OnOk result (out.new ≡ out.old ++ flat_map (copies_from 1).spell copies.now) }
{
    for copy in copies {
        put_copy(out, copy)?;
    }
    Ok(())
}

pub fn put_copies(out: &mut Bytes, copies: &ReportedCopies) -> Result<(), NoMemory>
    requires { length copies.now < 2 ^ 16 }
    ensures { OnOk result (out.new ≡ out.old ++ reported_copies.spell copies.now) }
{
    put_u16(out, copies.len() as u16)?;
    put_each_copy(out, copies.as_slice())
}

fn opened_number(answer: &OpenedAs) -> u8
    ensures { result ≡ opened_number answer.now }
{
    match answer {
        OpenedAs::Open { .. } => 1,
        OpenedAs::No { .. } => 2,
    }
}

fn put_opened(out: &mut Bytes, ino: u16, size: u32) -> Result<(), NoMemory>
    ensures { OnOk result (out.new ≡ out.old ++ (pair inodes sizes).spell (ino, size)) }
{
    put_u16(out, ino)?;
    put_u32(out, size)
}

fn put_opened_fields(out: &mut Bytes, answer: &OpenedAs) -> Result<(), NoMemory>
    requires { IsInRange (opened_fields answer.now) }
    ensures { OnOk result (out.new ≡ out.old ++ bytes_of (opened_fields answer.now)) }
{
    match answer {
        OpenedAs::Open { ino, size } => put_opened(out, *ino, *size),
        OpenedAs::No { why } => put_refusal(out, why),
    }
}

pub fn put_opened_answer(out: &mut Bytes, answer: &OpenedAs) -> Result<(), NoMemory>
    requires { opened_answers.Fits answer.now }
    ensures { OnOk result (out.new ≡ out.old ++ opened_answers.spell answer.now) }
{
    put_u8(out, opened_number(answer))?;
    put_opened_fields(out, answer)
}

fn granted_number(answer: &Granted) -> u8
    ensures { result ≡ granted_number answer.now }
{
    match answer {
        Granted::Open { .. } => 1,
        Granted::No { .. } => 2,
    }
}

fn put_grant(
    out: &mut Bytes,
    ss: SiteId,
    ino: u16,
    size: u32,
    stamp: Stamp,
    vector: &Vector<SITES>,
) -> Result<(), NoMemory>
    ensures { OnOk result (out.new ≡ out.old ++ grants.spell (ss, (ino, (size, (stamp, vector.now))))) }
{
    put_site(out, ss)?;
    put_u16(out, ino)?;
    put_u32(out, size)?;
    put_stamp(out, stamp)?;
    put_vector(out, vector)
}

fn put_granted_fields(out: &mut Bytes, answer: &Granted) -> Result<(), NoMemory>
    requires { IsInRange (granted_fields answer.now) }
    ensures { OnOk result (out.new ≡ out.old ++ bytes_of (granted_fields answer.now)) }
{
    match answer {
        Granted::Open {
            ss,
            ino,
            size,
            stamp,
            vector,
        } => put_grant(out, *ss, *ino, *size, *stamp, vector),
        Granted::No { why } => put_refusal(out, why),
    }
}

pub fn put_granted_answer(out: &mut Bytes, answer: &Granted) -> Result<(), NoMemory>
    requires { granted_answers.Fits answer.now }
    ensures { OnOk result (out.new ≡ out.old ++ granted_answers.spell answer.now) }
{
    put_u8(out, granted_number(answer))?;
    put_granted_fields(out, answer)
}

fn put_version_made(out: &mut Bytes, version: &MadeVersion) -> Result<(), NoMemory>
    ensures { OnOk result (out.new ≡ out.old ++ 1 ∷ made_versions.spell version.now) }
{
    put_u8(out, 1)?;
    put_made_version(out, version)
}

pub fn put_made_answer(out: &mut Bytes, made: &Option<MadeVersion>) -> Result<(), NoMemory>
    ensures { OnOk result (out.new ≡ out.old ++ made_answers.spell made.now) }
{
    match made {
        None => put_u8(out, 0),
        Some(version) => put_version_made(out, version),
    }
}

fn close_number(answer: &CloseAnswer) -> u8
    ensures { result ≡ close_number answer.now }
{
    match answer {
        CloseAnswer::Nothing => 0,
        CloseAnswer::Made { .. } => 1,
        CloseAnswer::No { .. } => 2,
    }
}

fn put_close_fields(out: &mut Bytes, answer: &CloseAnswer) -> Result<(), NoMemory>
    requires { IsInRange (close_fields answer.now) }
    ensures { OnOk result (out.new ≡ out.old ++ bytes_of (close_fields answer.now)) }
{
    match answer {
        CloseAnswer::Nothing => Ok(()),
        CloseAnswer::Made { stamp } => put_stamp(out, *stamp),
        CloseAnswer::No { why } => put_refusal(out, why),
    }
}

pub fn put_close_answer(out: &mut Bytes, answer: &CloseAnswer) -> Result<(), NoMemory>
    requires { close_answers.Fits answer.now }
    ensures { OnOk result (out.new ≡ out.old ++ close_answers.spell answer.now) }
{
    put_u8(out, close_number(answer))?;
    put_close_fields(out, answer)
}

fn look_number(answer: &LookAnswer) -> u8
    ensures { result ≡ look_number answer.now }
{
    match answer {
        LookAnswer::Found { .. } => 1,
        LookAnswer::Content { .. } => 2,
        LookAnswer::Stat { .. } => 3,
        LookAnswer::Moved => 4,
        LookAnswer::No { .. } => 5,
    }
}

fn put_found(out: &mut Bytes, ino: u16, kind: Kind) -> Result<(), NoMemory>
    ensures { OnOk result (out.new ≡ out.old ++ (pair inodes kinds).spell (ino, kind)) }
{
    put_u16(out, ino)?;
    put_kind(out, kind)
}

fn put_content(out: &mut Bytes, bytes: &Bytes) -> Result<(), NoMemory>
    requires { length bytes.now < 2 ^ 32 }
    ensures { OnOk result (out.new ≡ out.old ++ contents.spell bytes.now) }
{
    put_u32(out, bytes.len() as u32)?;
    put_slice(out, bytes.as_slice())
}

fn put_stat(out: &mut Bytes, kind: Kind, size: u32, stamp: Stamp) -> Result<(), NoMemory>
    ensures { OnOk result (out.new ≡ out.old ++ stats.spell (kind, (size, stamp))) }
{
    put_kind(out, kind)?;
    put_u32(out, size)?;
    put_stamp(out, stamp)
}

fn put_look_fields(out: &mut Bytes, answer: &LookAnswer) -> Result<(), NoMemory>
    requires { IsInRange (look_fields answer.now) }
    ensures { OnOk result (out.new ≡ out.old ++ bytes_of (look_fields answer.now)) }
{
    match answer {
        LookAnswer::Found { ino, kind } => put_found(out, *ino, *kind),
        LookAnswer::Content { bytes } => put_content(out, bytes),
        LookAnswer::Stat { kind, size, stamp } => put_stat(out, *kind, *size, *stamp),
        LookAnswer::Moved => Ok(()),
        LookAnswer::No { why } => put_refusal(out, why),
    }
}

pub fn put_look_answer(out: &mut Bytes, answer: &LookAnswer) -> Result<(), NoMemory>
    requires { look_answers.Fits answer.now }
    ensures { OnOk result (out.new ≡ out.old ++ look_answers.spell answer.now) }
{
    put_u8(out, look_number(answer))?;
    put_look_fields(out, answer)
}
