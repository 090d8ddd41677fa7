// Each of these is one word of a reply's text.
ghost use Rattle.std.specs.Prelude.{◌≡◌, ◌++◌, IfOk, OnOk};
ghost use Rattle.trace_book.specs.Text.{file_text, hex_text, kind_text, number, stamp_text};

use locus_ids::{Bytes, FileId, Kind, NoMemory, Stamp};
use std::alloc::Global;

pub(crate) fn number(alloc: Global, n: u32) -> Result<Bytes, NoMemory>
    ensures { IfOk result (λ made. made ≡ number n) }
{
    let mut out = Bytes::new(alloc);
    push_number(&mut out, n)?;
    Ok(out)
}

pub(crate) fn stamp(alloc: Global, stamp: Stamp) -> Result<Bytes, NoMemory>
    ensures { IfOk result (λ made. made ≡ stamp_text stamp) }
{
    let mut out = Bytes::new(alloc);
    push_number(&mut out, u32::from(stamp.site))?;
    out.append(b".")?;
    push_number(&mut out, stamp.n)?;
    Ok(out)
}

pub(crate) fn file(alloc: Global, file: FileId) -> Result<Bytes, NoMemory>
    ensures { IfOk result (λ made. made ≡ file_text file) }
{
    let mut out = Bytes::new(alloc);
    push_number(&mut out, u32::from(file.group))?;
    out.append(b".")?;
    push_number(&mut out, u32::from(file.ino))?;
    Ok(out)
}

pub(crate) fn kind(alloc: Global, kind: Kind) -> Result<Bytes, NoMemory>
    ensures { IfOk result (λ made. made ≡ kind_text kind) }
{
    match kind {
        Kind::File => Bytes::from_slice(alloc, b"f"),
        Kind::Dir => Bytes::from_slice(alloc, b"d"),
    }
}

pub(crate) fn hex(alloc: Global, bytes: &[u8]) -> Result<Bytes, NoMemory>
    ensures { IfOk result (λ made. made ≡ hex_text bytes.now) }
{
    if bytes.is_empty() {
        return Bytes::from_slice(alloc, b"-");
    }
    let text = hex::encode(alloc, bytes)?;
    Bytes::from_slice(alloc, text.as_bytes())
}

fn push_number(out: &mut Bytes, n: u32) -> Result<(), NoMemory>
    ensures { OnOk result (out.new ≡ out.old ++ number n) }
{
    let text = n.to_string(out.allocator())?;
    out.append(text.as_bytes())
}
