//! The bodies of the kinds that close, look and propagate.

ghost use Rattle.std.specs.Prelude.{◌≡◌, ◌<◌, ◌^◌, ◌++◌, length, OnOk};
ghost use Rattle.std.specs.List.{flat_map};
ghost use Rattle.field_codec.specs.Codec.{u16};
ghost use Rattle.wire_messages.specs.Bodies.{body_bytes, FitsBody, page_numbers};

use crate::put_answers::{put_close_answer, put_look_answer, put_made_answer, put_version};
use field_codec::{put_u8, put_u16, put_u32};
use locus_ids::sizes::SITES;
use locus_ids::{Bytes, FileId, Kind, NoMemory, Serial, SiteId, Sites, Stamp};
use trace_book::What;
use version_vector::Vector;
use wire_messages::{Body, CloseAnswer, LookAnswer, MadeVersion, PageNumbers};
use wire_parts::{
    put_data, put_file, put_instance, put_kind, put_set, put_site, put_stamp, put_what,
};

pub fn put_closed(out: &mut Bytes, inst: Serial, made: &Option<MadeVersion>) -> Result<(), NoMemory>
    ensures { OnOk result (out.new ≡ out.old ++ body_bytes (Body.Closed inst made.now)) }
{
    put_instance(out, inst)?;
    put_made_answer(out, made)
}

pub fn put_close_done(out: &mut Bytes, serial: u32, answer: &CloseAnswer) -> Result<(), NoMemory>
    requires { FitsBody (Body.CloseDone serial answer.now) }
    ensures { OnOk result (out.new ≡ out.old ++ body_bytes (Body.CloseDone serial answer.now)) }
{
    put_u32(out, serial)?;
    put_close_answer(out, answer)
}

pub fn put_look(
    out: &mut Bytes,
    call: u32,
    process: u8,
    request: u16,
    take: u32,
    file: FileId,
    what: &What,
) -> Result<(), NoMemory>
    requires { FitsBody (Body.Look call process request take file what.now) }
    ensures { OnOk result (out.new ≡ out.old ++ body_bytes (Body.Look call process request take file what.now)) }
{
    put_u32(out, call)?;
    put_u8(out, process)?;
    put_u16(out, request)?;
    put_u32(out, take)?;
    put_file(out, file)?;
    put_what(out, what)
}

pub fn put_look_ss(
    out: &mut Bytes,
    us: SiteId,
    call: u32,
    process: u8,
    request: u16,
    take: u32,
    file: FileId,
    what: &What,
    serve: Stamp,
) -> Result<(), NoMemory>
    requires { FitsBody (Body.LookSs us call process request take file what.now serve) }
    ensures { OnOk result (out.new ≡ out.old ++ body_bytes (Body.LookSs us call process request take file what.now serve)) }
{
    put_site(out, us)?;
    put_look(out, call, process, request, take, file, what)?;
    put_stamp(out, serve)
}

pub fn put_look_done(
    out: &mut Bytes,
    call: u32,
    request: u16,
    take: u32,
    answer: &LookAnswer,
) -> Result<(), NoMemory>
    requires { FitsBody (Body.LookDone call request take answer.now) }
    ensures { OnOk result (out.new ≡ out.old ++ body_bytes (Body.LookDone call request take answer.now)) }
{
    put_u32(out, call)?;
    put_u16(out, request)?;
    put_u32(out, take)?;
    put_look_answer(out, answer)
}

pub fn put_notify(
    out: &mut Bytes,
    file: FileId,
    kind: Kind,
    set: Sites,
    size: u32,
    stamp: Stamp,
    vector: &Vector<SITES>,
    holder: SiteId,
) -> Result<(), NoMemory>
    ensures { OnOk result (out.new ≡ out.old ++ body_bytes (Body.Notify file kind set size stamp vector.now holder)) }
{
    put_file(out, file)?;
    put_kind(out, kind)?;
    put_set(out, set)?;
    put_u32(out, size)?;
    put_version(out, stamp, vector)?;
    put_site(out, holder)
}

pub fn put_pull(out: &mut Bytes, file: FileId, stamp: Stamp, page: u8) -> Result<(), NoMemory>
    ensures { OnOk result (out.new ≡ out.old ++ body_bytes (Body.Pull file stamp page)) }
{
    put_file(out, file)?;
    put_stamp(out, stamp)?;
    put_u8(out, page)
}

pub fn put_page(
    out: &mut Bytes,
    file: FileId,
    stamp: Stamp,
    page: u8,
    bytes: &Bytes,
) -> Result<(), NoMemory>
    requires { FitsBody (Body.Page file stamp page bytes.now) }
    ensures { OnOk result (out.new ≡ out.old ++ body_bytes (Body.Page file stamp page bytes.now)) }
{
    put_pull(out, file, stamp, page)?;
    put_data(out, bytes)
}

pub fn put_have(out: &mut Bytes, file: FileId, stamp: Stamp) -> Result<(), NoMemory>
    ensures { OnOk result (out.new ≡ out.old ++ body_bytes (Body.Have file stamp)) }
{
    put_file(out, file)?;
    put_stamp(out, stamp)
}

pub fn put_want(out: &mut Bytes, file: FileId, wanted: Stamp, own: Stamp) -> Result<(), NoMemory>
    ensures { OnOk result (out.new ≡ out.old ++ body_bytes (Body.Want file wanted own)) }
{
    put_file(out, file)?;
    put_stamp(out, wanted)?;
    put_stamp(out, own)
}

pub fn put_delta(
    out: &mut Bytes,
    file: FileId,
    wanted: Stamp,
    pages: &PageNumbers,
) -> Result<(), NoMemory>
    requires { FitsBody (Body.Delta file wanted pages.now) }
    ensures { OnOk result (out.new ≡ out.old ++ body_bytes (Body.Delta file wanted pages.now)) }
{
    put_file(out, file)?;
    put_stamp(out, wanted)?;
    put_pages(out, pages)
}

/// A count, and so many numbers of pages.
fn put_pages(out: &mut Bytes, pages: &PageNumbers) -> Result<(), NoMemory>
    requires { length pages.now < 2 ^ 16 }
    ensures { OnOk result (out.new ≡ out.old ++ page_numbers.spell pages.now) }
{
    put_u16(out, pages.len() as u16)?;
    put_each_page(out, pages.as_slice())
}

fn put_each_page(out: &mut Bytes, pages: &[u16]) -> Result<(), NoMemory>
    ensures { OnOk result (out.new ≡ out.old ++ flat_map u16.spell pages.now) }
{
    for page in pages {
        put_u16(out, *page)?;
    }
    Ok(())
}
