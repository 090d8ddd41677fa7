ghost use Rattle.std.specs.Prelude.{◌↔◌, ◌∷◌, IsTrue, length};
ghost use Rattle.wire_messages.specs.Answers.{is_new, modes, openings, made_versions, copies_from, reported_copies, grants, contents, stats, opened_fields, granted_fields, made_fields, close_fields, look_fields};
ghost use Rattle.field_codec.specs.Codec.{pair};
ghost use Rattle.field_codec.specs.Shapes.{IsInRange};
ghost use Rattle.wire_fields.specs.Parts.{inodes, sizes};

use crate::fields::{is_inode, is_site, is_size, is_some_set, is_stamp, is_vector, is_version};
use crate::operations::{is_found, is_kind};
use crate::refusals::is_refusal;
use locus_ids::sizes::{FILE_BYTES, INODES, SITES};
use locus_ids::{Bytes, FileId, Kind, Mode, SiteId, Stamp};
use version_vector::Vector;
use wire_messages::{
    CloseAnswer, Granted, LookAnswer, MadeVersion, OpenedAs, Opening, ReportedCopy,
};

/// A file that is to be made is opened so, and no other.
pub fn is_mode(file: FileId, mode: Mode) -> bool
    ensures { IsTrue result ↔ (modes (is_new file)).Fits mode }
{
    (file.ino == 0) == (mode == Mode::Make)
}

/// A file that is to be made is opened so, and no other.
pub fn is_opening(file: FileId, how: &Opening) -> bool
    ensures { IsTrue result ↔ (openings (is_new file)).Fits how.now }
{
    match how {
        Opening::Read => file.ino != 0,
        Opening::Write => file.ino != 0,
        Opening::Resolve { site } => file.ino != 0 && is_site(*site),
        Opening::Mend => file.ino != 0,
        Opening::Make { set, .. } => file.ino == 0 && is_some_set(*set),
    }
}

fn is_made_version(version: &MadeVersion) -> bool
    ensures { IsTrue result ↔ made_versions.Fits version.now }
{
    is_version(version.stamp, &version.vector) && is_size(version.size)
}

pub fn is_made_answer(made: &Option<MadeVersion>) -> bool
    ensures { IsTrue result ↔ IsInRange (made_fields made.now) }
{
    match made {
        None => true,
        Some(version) => is_made_version(version),
    }
}

/// A copy whose inode is not below this one.
pub fn is_copy_from(least: u16, copy: &ReportedCopy) -> bool
    ensures { IsTrue result ↔ (copies_from least).Fits copy.now }
{
    least <= copy.ino
        && copy.ino <= INODES
        && is_some_set(copy.set)
        && is_kind(copy.kind)
        && is_size(copy.size)
        && is_version(copy.stamp, &copy.vector)
}

fn is_opened(ino: u16, size: u32) -> bool
    ensures { IsTrue result ↔ (pair inodes sizes).Fits (ino, size) }
{
    is_inode(ino) && is_size(size)
}

/// What a storage site answers an open.
pub fn is_opened_answer(answer: &OpenedAs) -> bool
    ensures { IsTrue result ↔ IsInRange (opened_fields answer.now) }
{
    match answer {
        OpenedAs::Open { ino, size } => is_opened(*ino, *size),
        OpenedAs::No { why } => is_refusal(why),
    }
}

fn is_grant(ss: SiteId, ino: u16, size: u32, stamp: Stamp, vector: &Vector<SITES>) -> bool
    ensures { IsTrue result ↔ grants.Fits (ss, (ino, (size, (stamp, vector.now)))) }
{
    is_site(ss.get()) && is_inode(ino) && is_size(size) && is_stamp(stamp) && is_vector(vector)
}

/// What a synchronization site answers an open.
pub fn is_granted_answer(answer: &Granted) -> bool
    ensures { IsTrue result ↔ IsInRange (granted_fields answer.now) }
{
    match answer {
        Granted::Open {
            ss,
            ino,
            size,
            stamp,
            vector,
        } => is_grant(*ss, *ino, *size, *stamp, vector),
        Granted::No { why } => is_refusal(why),
    }
}

/// What a close is answered.
pub fn is_close_answer(answer: &CloseAnswer) -> bool
    ensures { IsTrue result ↔ IsInRange (close_fields answer.now) }
{
    match answer {
        CloseAnswer::Nothing => true,
        CloseAnswer::Made { stamp } => is_stamp(*stamp),
        CloseAnswer::No { why } => is_refusal(why),
    }
}

fn is_content(bytes: &Bytes) -> bool
    ensures { IsTrue result ↔ contents.Fits bytes.now }
{
    bytes.len() <= FILE_BYTES
}

fn is_stat(kind: Kind, size: u32, stamp: Stamp) -> bool
    ensures { IsTrue result ↔ stats.Fits (kind, (size, stamp)) }
{
    is_kind(kind) && is_size(size) && is_stamp(stamp)
}

/// What a Look is answered.
pub fn is_look_answer(answer: &LookAnswer) -> bool
    ensures { IsTrue result ↔ IsInRange (look_fields answer.now) }
{
    match answer {
        LookAnswer::Found { ino, kind } => is_found(*ino, *kind),
        LookAnswer::Content { bytes } => is_content(bytes),
        LookAnswer::Stat { kind, size, stamp } => is_stat(*kind, *size, *stamp),
        LookAnswer::Moved => true,
        LookAnswer::No { why } => is_refusal(why),
    }
}
