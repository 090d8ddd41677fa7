ghost use Rattle.std.specs.Prelude.{◌≡◌, [], ◌++◌, IfOk, OnOk, OnErr};
ghost use Rattle.field_codec.specs.Codec.{u32};
ghost use Rattle.wire_messages.specs.Packets.{headers, header_of, packet_bytes, FitsPacket};

use crate::put_bodies::{kind_number, put_body};
use locus_ids::{Bytes, NoMemory};
use std::alloc::Global;
use wire_messages::Packet;

/// What stands before a body has so many bytes.
const HEADING_BYTES: usize = 25;

/// A body with a whole page has so many bytes, and most others have fewer.
const BODY_ROOM: usize = 1_035;

/// What stands before the body, which has so many bytes.
fn heading(p: &Packet, length: u32) -> [u8; HEADING_BYTES]
    ensures { result ≡ headers.spell (header_of p.now) ++ u32.spell length }
{
    let from_boot = p.from_boot.to_be_bytes();
    let to_boot = p.to_boot.to_be_bytes();
    let number = p.epoch.number.to_be_bytes();
    let boot = p.epoch.boot.to_be_bytes();
    let length = length.to_be_bytes();
    [
        1,
        kind_number(&p.body),
        p.from.get(),
        from_boot[0],
        from_boot[1],
        from_boot[2],
        from_boot[3],
        p.to.get(),
        to_boot[0],
        to_boot[1],
        to_boot[2],
        to_boot[3],
        number[0],
        number[1],
        number[2],
        number[3],
        p.epoch.site,
        boot[0],
        boot[1],
        boot[2],
        boot[3],
        length[0],
        length[1],
        length[2],
        length[3],
    ]
}

/// Takes memory for so many bytes at once, of which there are none yet.
fn with_room(alloc: Global, room: &[u8]) -> Result<Bytes, NoMemory>
    ensures { IfOk result (λ made. made ≡ []) }
{
    let mut bytes = Bytes::from_slice(alloc, room)?;
    bytes.clear();
    Ok(bytes)
}

/// Adds two rows of bytes, both or, after `NoMemory`, none.
fn append_both(out: &mut Bytes, first: &[u8], then: &[u8]) -> Result<(), NoMemory>
    ensures ok { OnOk result (out.new ≡ out.old ++ (first.now ++ then.now)) }
    ensures err { OnErr result (out.new ≡ out.old) }
{
    let before = out.len();
    out.append(first)?;
    if let Err(fault) = out.append(then) {
        out.truncate(before);
        return Err(fault);
    }
    Ok(())
}

/// A buffer in which bodies are put together. Its memory is kept from one packet to the next.
#[derive(Drop)]
pub struct Encoder {
    body: Bytes,
}

impl Encoder {
    /// Takes the memory that most packets need at once.
    pub fn new(alloc: Global) -> Result<Encoder, NoMemory> {
        let body = with_room(alloc, &[0; BODY_ROOM])?;
        Ok(Encoder { body })
    }

    /// Adds the bytes of a packet at the end, all or, after `NoMemory`, none.
    pub fn encode(&mut self, p: &Packet, out: &mut Bytes) -> Result<(), NoMemory>
        requires { FitsPacket p.now }
        ensures ok { OnOk result (out.new ≡ out.old ++ packet_bytes p.now) }
        ensures err { OnErr result (out.new ≡ out.old) }
    {
        self.body.clear();
        put_body(&mut self.body, &p.body)?;
        let front = heading(p, self.body.len() as u32);
        append_both(out, &front, self.body.as_slice())
    }
}

/// Adds the bytes of a packet at the end, all or, after `NoMemory`, none.
pub fn encode(p: &Packet, out: &mut Bytes) -> Result<(), NoMemory>
    requires { FitsPacket p.now }
    ensures ok { OnOk result (out.new ≡ out.old ++ packet_bytes p.now) }
    ensures err { OnErr result (out.new ≡ out.old) }
{
    let mut body = with_room(out.allocator(), &[0; BODY_ROOM])?;
    put_body(&mut body, &p.body)?;
    let front = heading(p, body.len() as u32);
    append_both(out, &front, body.as_slice())
}
