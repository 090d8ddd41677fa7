//! The bodies of the kinds that close, look and propagate.

ghost use Rattle.field_codec.specs.Reads.{Reads, ReadsInMemory};
ghost use Rattle.wire_messages.specs.Bodies.{closed_bodies, closed_ok_bodies, close_done_bodies, look_bodies, look_ss_bodies, look_done_bodies, notify_bodies, pull_bodies, page_bodies, have_bodies, want_bodies, delta_bodies, page_numbers};
ghost use Rattle.wire_reading.specs.Pages.{pages_from};

use crate::read_answers::{read_close_answer, read_look_answer, read_made_answer, read_version};
use field_codec::{FieldFault, Fields, ReadError};
use locus_ids::Bytes;
use locus_ids::sizes::PAGE_BYTES;
use std::alloc::Global;
use wire_messages::{Body, PageNumbers};
use wire_parts::{
    read_file, read_instance, read_kind, read_number, read_process, read_site, read_size,
    read_some_set, read_stamp, read_what,
};

pub fn read_closed(fields: &mut Fields) -> Result<Body, ReadError>
    ensures { ReadsInMemory closed_bodies (λ body. body) fields.old result fields.new }
{
    let inst = read_instance(fields)?;
    let made = read_made_answer(fields)?;
    Ok(Body::Closed { inst, made })
}

pub fn read_closed_ok(fields: &mut Fields) -> Result<Body, ReadError>
    ensures { ReadsInMemory closed_ok_bodies (λ body. body) fields.old result fields.new }
{
    let inst = read_instance(fields)?;
    Ok(Body::ClosedOk { inst })
}

pub fn read_close_done(alloc: Global, fields: &mut Fields) -> Result<Body, ReadError>
    ensures { ReadsInMemory close_done_bodies (λ body. body) fields.old result fields.new }
{
    let serial = read_number(fields)?;
    let answer = read_close_answer(alloc, fields)?;
    Ok(Body::CloseDone { serial, answer })
}

pub fn read_look(alloc: Global, fields: &mut Fields) -> Result<Body, ReadError>
    ensures { ReadsInMemory look_bodies (λ body. body) fields.old result fields.new }
{
    let call = fields.get_u32()?;
    let process = read_process(fields)?;
    let request = fields.get_u16()?;
    let take = fields.get_u32()?;
    let file = read_file(fields)?;
    let what = read_what(alloc, fields)?;
    Ok(Body::Look {
        call,
        process,
        request,
        take,
        file,
        what,
    })
}

pub fn read_look_ss(alloc: Global, fields: &mut Fields) -> Result<Body, ReadError>
    ensures { ReadsInMemory look_ss_bodies (λ body. body) fields.old result fields.new }
{
    let us = read_site(fields)?;
    let call = fields.get_u32()?;
    let process = read_process(fields)?;
    let request = fields.get_u16()?;
    let take = fields.get_u32()?;
    let file = read_file(fields)?;
    let what = read_what(alloc, fields)?;
    let serve = read_stamp(fields)?;
    Ok(Body::LookSs {
        us,
        call,
        process,
        request,
        take,
        file,
        what,
        serve,
    })
}

pub fn read_look_done(alloc: Global, fields: &mut Fields) -> Result<Body, ReadError>
    ensures { ReadsInMemory look_done_bodies (λ body. body) fields.old result fields.new }
{
    let call = fields.get_u32()?;
    let request = fields.get_u16()?;
    let take = fields.get_u32()?;
    let answer = read_look_answer(alloc, fields)?;
    Ok(Body::LookDone {
        call,
        request,
        take,
        answer,
    })
}

pub fn read_notify(fields: &mut Fields) -> Result<Body, ReadError>
    ensures { ReadsInMemory notify_bodies (λ body. body) fields.old result fields.new }
{
    let file = read_file(fields)?;
    let kind = read_kind(fields)?;
    let set = read_some_set(fields)?;
    let size = read_size(fields)?;
    let (stamp, vector) = read_version(fields)?;
    let holder = read_site(fields)?;
    Ok(Body::Notify {
        file,
        kind,
        set,
        size,
        stamp,
        vector,
        holder,
    })
}

pub fn read_pull(fields: &mut Fields) -> Result<Body, ReadError>
    ensures { ReadsInMemory pull_bodies (λ body. body) fields.old result fields.new }
{
    let file = read_file(fields)?;
    let stamp = read_stamp(fields)?;
    let page = fields.get_u8()?;
    Ok(Body::Pull { file, stamp, page })
}

pub fn read_page(alloc: Global, fields: &mut Fields) -> Result<Body, ReadError>
    ensures { ReadsInMemory page_bodies (λ body. body) fields.old result fields.new }
{
    let file = read_file(fields)?;
    let stamp = read_stamp(fields)?;
    let page = fields.get_u8()?;
    let length = fields.u16_in(1, PAGE_BYTES as u16)?;
    let content = fields.slice(length as u32)?;
    let bytes = Bytes::from_slice(alloc, content)?;
    Ok(Body::Page {
        file,
        stamp,
        page,
        bytes,
    })
}

pub fn read_have(fields: &mut Fields) -> Result<Body, ReadError>
    ensures { ReadsInMemory have_bodies (λ body. body) fields.old result fields.new }
{
    let file = read_file(fields)?;
    let stamp = read_stamp(fields)?;
    Ok(Body::Have { file, stamp })
}

pub fn read_want(fields: &mut Fields) -> Result<Body, ReadError>
    ensures { ReadsInMemory want_bodies (λ body. body) fields.old result fields.new }
{
    let file = read_file(fields)?;
    let wanted = read_stamp(fields)?;
    let own = read_stamp(fields)?;
    Ok(Body::Want { file, wanted, own })
}

pub fn read_delta(alloc: Global, fields: &mut Fields) -> Result<Body, ReadError>
    ensures { ReadsInMemory delta_bodies (λ body. body) fields.old result fields.new }
{
    let file = read_file(fields)?;
    let wanted = read_stamp(fields)?;
    let pages = read_pages(alloc, fields)?;
    Ok(Body::Delta {
        file,
        wanted,
        pages,
    })
}

/// A count, and so many numbers of pages that ascend.
fn read_pages(alloc: Global, fields: &mut Fields) -> Result<PageNumbers, ReadError>
    ensures { ReadsInMemory page_numbers (λ pages. pages) fields.old result fields.new }
{
    let count = fields.get_u16()?;
    let mut pages = PageNumbers::new(alloc);
    let mut least = 0;
    for _ in 0..count {
        let page = read_page_from(least, fields)?;
        pages.push(page)?;
        least = page as u32 + 1;
    }
    Ok(pages)
}

/// A number of a page that is at least this one.
fn read_page_from(least: u32, fields: &mut Fields) -> Result<u16, FieldFault>
    ensures { Reads (pages_from least) (λ page. page) fields.old result fields.new }
{
    let at = fields.at();
    let page = fields.get_u16()?;
    if u32::from(page) < least {
        return Err(FieldFault::Range { at });
    }
    Ok(page)
}
