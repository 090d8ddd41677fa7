ghost use Rattle.std.specs.Prelude.{◌≡◌, ◌<◌, ◌^◌, ◌⊎◌, length, Ok, Err, IfOk};
ghost use Rattle.field_codec.specs.Codec.{whole};
ghost use Rattle.field_codec.specs.Reads.{Reads};
ghost use Rattle.wire_messages.specs.declared.packet.Packet.{Packet};
ghost use Rattle.wire_messages.specs.Packets.{headers, packets, IsPacket};
ghost use Rattle.wire_reading.specs.Decoding.{seen_header, Decodes};

use crate::read_bodies::read_body;
use field_codec::{FieldFault, Fields, ReadError};
use locus_ids::{EpochId, SiteId};
use std::alloc::Global;
use thiserror::Error;
use wire_messages::Packet;
use wire_parts::{read_epoch, read_number, read_site};

/// Why bytes give no packet.
#[derive(Clone, Copy, Debug, PartialEq, Eq, Error)]
pub enum NotAPacket {
    /// They are none: the place, from 0, of the first field that is short or out of range, or of the first byte left over.
    #[error("no packet: at {at}")]
    At { at: u32 },
    #[error("no memory")]
    NoMemory,
}

/// What stands before the body.
#[derive(Clone, Copy)]
pub struct Heading {
    pub kind: u8,
    pub from: SiteId,
    pub from_boot: u32,
    pub to: SiteId,
    pub to_boot: u32,
    pub epoch: EpochId,
}

fn read_heading(fields: &mut Fields) -> Result<Heading, FieldFault>
    ensures { Reads headers seen_header fields.old result fields.new }
{
    fields.u8_in(1, 1)?;
    let kind = fields.u8_in(1, 26)?;
    let from = read_site(fields)?;
    let from_boot = read_number(fields)?;
    let to = read_site(fields)?;
    let to_boot = read_number(fields)?;
    let epoch = read_epoch(fields)?;
    Ok(Heading {
        kind,
        from,
        from_boot,
        to,
        to_boot,
        epoch,
    })
}

impl From<FieldFault> for NotAPacket {
    ghost use Rattle.std.specs.Prelude.{◌≡◌};
    ghost use Rattle.wire_reading.specs.declared.decoder.NotAPacket.TheVariants.{At};
    ghost use Rattle.wire_reading.specs.Decoding.{place_of};

    ghost from_gives = { λ fault error. error ≡ At (place_of fault) };

    fn from(fault: FieldFault) -> NotAPacket {
        match fault {
            FieldFault::Short { at } => NotAPacket::At { at },
            FieldFault::Range { at } => NotAPacket::At { at },
        }
    }
}

impl From<ReadError> for NotAPacket {
    ghost use Rattle.std.specs.Prelude.{◌≡◌};
    ghost use Rattle.wire_reading.specs.Decoding.{refusal_of};

    ghost from_gives = { λ fault error. error ≡ refusal_of fault };

    fn from(fault: ReadError) -> NotAPacket {
        match fault {
            ReadError::Field(fault) => NotAPacket::from(fault),
            ReadError::NoMemory => NotAPacket::NoMemory,
        }
    }
}

/// The packet that the bytes are, or why they are none. It is read in one place, so that it is moved as seldom as may be.
fn read_whole(alloc: Global, bytes: &[u8]) -> Result<Packet, NotAPacket>
    requires { length bytes.now < 2 ^ 32 }
    ensures { Decodes (whole packets bytes.now) result }
{
    let mut fields = Fields::new(bytes);
    let heading = read_heading(&mut fields)?;
    let mut inner = fields.frame()?;
    let body = read_body(alloc, heading.kind, &mut inner)?;
    let packet = Packet {
        from: heading.from,
        from_boot: heading.from_boot,
        to: heading.to,
        to_boot: heading.to_boot,
        epoch: heading.epoch,
        body,
    };
    inner.end()?;
    fields.end()?;
    Ok(packet)
}

/// The packet that the bytes are.
pub fn decode(alloc: Global, bytes: &[u8]) -> Result<Packet, NotAPacket>
    requires { length bytes.now < 2 ^ 32 }
    // What is given has these bytes.
    ensures found { IfOk result (IsPacket bytes.now) }
    // A packet that has these bytes is given, unless memory runs out.
    ensures only { (p : Packet) → IsPacket bytes.now p → (result ≡ Ok p) ⊎ (result ≡ Err NotAPacket.NoMemory) }
    // A refusal names the first field from the left that is short or out of range, or the first byte left over.
    ensures place { Decodes (whole packets bytes.now) result }
{
    read_whole(alloc, bytes)
}
