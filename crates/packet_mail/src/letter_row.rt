// The bytes of packets, each alone, in one row.
ghost use Rattle.std.specs.Prelude.{◌≡◌, ◌<◌, ◌∷◌, [], ◌++◌, true, length, take, Some, slice_get, OnOk, OnErr};
ghost use Rattle.std.specs.List.{concat};
ghost use Rattle.packet_queue.specs.of_role_steps.Tables.{total};
ghost use Rattle.wire_messages.specs.Bodies.{body_bytes};
ghost use Rattle.wire_messages.specs.Packets.{packet_bytes, FitsPacket};

use crate::letters::part;
use locus_ids::{Bytes, NoMemory};
use std::alloc::Global;
use std::marker::Model;
use wire_messages::{Body, Packet};
use wire_writing::{Encoder, kind_number};

/// Where the bytes of a packet stand.
#[derive(Clone, Copy)]
pub(crate) struct Span {
    start: usize,
    end: usize,
}

/// The bytes of packets, each alone. The memory that they took is kept when they are taken away.
#[derive(Drop)]
pub struct Letters {
    row: Bytes,
    places: Vec<Span>,
}

impl Model for Letters {
    ghost use Rattle.std.specs.Prelude.{ℕ, List, length};
    ghost use Rattle.packet_mail.specs.Spans.{letters_in, ArePlaces, AreOneRow};

    ghost Value = { List (List ℕ) };

    ghost view = { λ l. letters_in l.row l.places.items };

    ghost invariant = { λ l. ArePlaces (length l.row) l.places.items × AreOneRow 0 (length l.row) l.places.items };
}

/// The body has no bytes.
fn is_empty(body: &Body) -> bool
    ensures { result ≡ true → body_bytes body.now ≡ [] }
{
    match body {
        Body::Poll => true,
        Body::Joined => true,
        _ => false,
    }
}

/// The bytes of a packet whose body has none.
fn short_letter(packet: &Packet) -> [u8; 25]
    requires { body_bytes packet.now.body ≡ [] }
    ensures { result ≡ packet_bytes packet.now }
{
    let from_boot = packet.from_boot.to_be_bytes();
    let to_boot = packet.to_boot.to_be_bytes();
    let number = packet.epoch.number.to_be_bytes();
    let boot = packet.epoch.boot.to_be_bytes();
    [
        1,
        kind_number(&packet.body),
        packet.from.get(),
        from_boot[0],
        from_boot[1],
        from_boot[2],
        from_boot[3],
        packet.to.get(),
        to_boot[0],
        to_boot[1],
        to_boot[2],
        to_boot[3],
        number[0],
        number[1],
        number[2],
        number[3],
        packet.epoch.site,
        boot[0],
        boot[1],
        boot[2],
        boot[3],
        0,
        0,
        0,
        0,
    ]
}

/// Adds the bytes of a packet at the end, all or, after `NoMemory`, none.
fn put_packet(packet: &Packet, encoder: &mut Encoder, out: &mut Bytes) -> Result<(), NoMemory>
    requires { FitsPacket packet.now }
    ensures ok { OnOk result (out.new ≡ out.old ++ packet_bytes packet.now) }
    ensures err { OnErr result (out.new ≡ out.old) }
{
    if is_empty(&packet.body) {
        return out.append(&short_letter(packet));
    }
    encoder.encode(packet, out)
}

/// Notes that a letter stands in the row from a place on, or, after `NoMemory`, takes it out again.
fn note_place(row: &mut Bytes, places: &mut Vec<Span>, start: usize) -> Result<(), NoMemory>
    ensures row { OnOk result (row.new ≡ row.old) }
    ensures places { OnOk result (places.new.items ≡ places.old.items ++ record { start = start; end = length row.old } ∷ []) }
    ensures row_back { OnErr result (row.new ≡ take start row.old) }
    ensures places_kept { OnErr result (places.new.items ≡ places.old.items) }
{
    let end = row.len();
    match places.push(Span { start, end }) {
        Ok(()) => Ok(()),
        Err(_) => {
            row.truncate(start);
            Err(NoMemory)
        }
    }
}

impl Letters {
    /// No packet.
    pub fn new(alloc: Global) -> Letters
        ensures { result ≡ [] }
    {
        Letters {
            row: Bytes::new(alloc),
            places: Vec::new(alloc),
        }
    }

    /// The number of packets.
    pub fn len(&self) -> usize
        ensures { result ≡ length self.now }
    {
        self.places.len()
    }

    /// The bytes of the packet at a place, from 0.
    pub fn letter(&self, i: usize) -> &[u8]
        requires { i < length self.now }
        ensures { Some result.now ≡ slice_get self.now i }
    {
        let place = self.places[i];
        part(self.row.as_slice(), place.start, place.end)
    }

    /// The bytes of all packets, one behind the other.
    pub(crate) fn row(&self) -> &[u8]
        ensures { result.now ≡ concat self.now }
    {
        self.row.as_slice()
    }

    /// The number of bytes of all packets together.
    pub fn size(&self) -> usize
        ensures { result ≡ total length self.now }
    {
        self.row.len()
    }

    /// Takes all bytes away.
    pub fn clear(&mut self)
        ensures { self.new ≡ [] }
    {
        self.row.clear();
        self.places.clear();
    }

    /// Adds the bytes of a packet, behind all others.
    pub fn add(&mut self, packet: &Packet, encoder: &mut Encoder) -> Result<(), NoMemory>
        requires { FitsPacket packet.now }
        ensures { OnOk result (self.new ≡ self.old ++ packet_bytes packet.now ∷ []) }
    {
        let start = self.row.len();
        put_packet(packet, encoder, &mut self.row)?;
        note_place(&mut self.row, &mut self.places, start)?;
        Ok(())
    }
}
