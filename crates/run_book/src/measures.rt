ghost use Rattle.std.specs.Prelude.{◌≡◌, ◌+◌, ◌≤◌, [], ◌∷◌, ◌++◌, map, nat_lt, Err, OnOk};
ghost use Rattle.std.specs.List.{AllByRecursion};
ghost use Rattle.role_steps.specs.Tables.{total};
ghost use Rattle.wire_messages.specs.Packets.{FitsPacket, packet_bytes};
ghost use Rattle.packet_order.specs.Counts.{FitsIfCounted};
ghost use Rattle.wire_messages.specs.declared.packet.Packet.{Packet};
ghost use Rattle.the_run.specs.Worlds.{packet_size};
ghost use Rattle.packet_order.specs.Orders.{together};
ghost use Rattle.packet_mail.specs.Posts.{posts};
ghost use Rattle.run_book.specs.Ledgers.{lines_text};

use crate::BookFault;
use locus_ids::{Bytes, NoMemory};
use packet_fit::fits;
use packet_mail::{Letters, Mail};
use packet_order::{Dispatch, OrderFault, Part, letter_of};
use std::alloc::Global;
use trace_book::Record;
use trace_text::render_onto;
use wire_messages::Packet;
use wire_writing::Encoder;

/// So many more are past the limit.
pub fn is_past(limit: usize, count: usize, more: usize) -> bool
    requires { count ≤ limit }
    ensures { result ≡ nat_lt limit (count + more) }
{
    more > limit - count
}

/// Adds the bytes of a packet, if it is one of the format.
fn add_letter(
    alloc: Global,
    packet: &Packet,
    encoder: &mut Encoder,
    letters: &mut Letters,
) -> Result<(), BookFault>
    ensures letter { OnOk result (letters.new ≡ letters.old ++ packet_bytes packet.now ∷ []) }
    ensures fits { OnOk result (FitsPacket packet.now) }
    ensures unfit { result ≡ Err BookFault.Unfit → FitsIfCounted packet.now → ⊥ }
{
    if !fits(packet) {
        return match letter_of(alloc, packet, encoder) {
            Err(OrderFault::Unfit) => Err(BookFault::Unfit),
            Err(OrderFault::NoMemory) => Err(BookFault::NoMemory),
            Ok(_) => unreachable!(),
        };
    }
    match letters.add(packet, encoder) {
        Ok(()) => Ok(()),
        Err(_) => Err(BookFault::NoMemory),
    }
}

/// Adds the bytes of each packet of a part, if they are of the format.
fn add_letters(
    alloc: Global,
    part: &Part,
    encoder: &mut Encoder,
    letters: &mut Letters,
) -> Result<(), BookFault>
    ensures letters { OnOk result (letters.new ≡ letters.old ++ map packet_bytes part.now.packets) }
    ensures fits { OnOk result (AllByRecursion (λ p. FitsPacket p) part.now.packets) }
    ensures unfit { result ≡ Err BookFault.Unfit → AllByRecursion (λ p. FitsIfCounted p) part.now.packets → ⊥ }
{
    for i in 0..part.len() {
        match part.packet(i) {
            Some(packet) => add_letter(alloc, packet, encoder, letters)?,
            None => return Err(BookFault::NoMemory),
        }
    }
    Ok(())
}

/// The bytes of each packet in turn, if all are of the format, in place of those of before.
fn put_letters(
    alloc: Global,
    parts: &[Part],
    encoder: &mut Encoder,
    letters: &mut Letters,
) -> Result<(), BookFault>
    ensures letters { OnOk result (letters.new ≡ map packet_bytes (together parts.now).packets) }
    ensures fits { OnOk result (AllByRecursion (λ p. FitsPacket p) (together parts.now).packets) }
    ensures unfit { result ≡ Err BookFault.Unfit → AllByRecursion (λ p. FitsIfCounted p) (together parts.now).packets → ⊥ }
{
    letters.clear();
    for part in parts {
        match add_letters(alloc, part, encoder, letters) {
            Ok(()) => {}
            Err(fault) => return Err(fault),
        }
    }
    Ok(())
}

/// Adds the text of some records of one line.
fn add_text(line: u32, records: &[Record], text: &mut Bytes) -> Result<(), NoMemory>
    ensures { OnOk result (text.new ≡ text.old ++ lines_text line records.now) }
{
    for what in records {
        render_onto(what, line, text)?;
    }
    Ok(())
}

/// The text of all records, those of one line, in place of that of before.
fn put_text(line: u32, parts: &[Part], text: &mut Bytes) -> Result<(), NoMemory>
    ensures { OnOk result (text.new ≡ lines_text line (together parts.now).records) }
{
    text.clear();
    for part in parts {
        add_text(line, part.records(), text)?;
    }
    Ok(())
}

/// Sends all packets, whose bytes these are.
pub fn send_all(mail: &mut Mail, parts: &[Part], letters: &Letters) -> Result<(), BookFault>
    requires packets { AllByRecursion (λ p. FitsPacket p) (together parts.now).packets }
    requires letters { letters.now ≡ map packet_bytes (together parts.now).packets }
    ensures ok { OnOk result (mail.new ≡ posts (together parts.now).packets mail.old) }
    ensures fits { result ≡ Err BookFault.Unfit → ⊥ }
{
    let _parts = parts;
    match mail.put_all(letters) {
        Ok(()) => Ok(()),
        Err(_) => Err(BookFault::NoMemory),
    }
}

/// What an event sends and tells, measured.
#[derive(Drop)]
pub struct Measured {
    /// The bytes of each packet.
    pub letters: Letters,
    pub bytes: usize,
    pub text: Bytes,
}

impl Measured {
    /// Nothing is measured.
    pub fn new(alloc: Global) -> Measured {
        Measured {
            letters: Letters::new(alloc),
            bytes: 0,
            text: Bytes::new(alloc),
        }
    }
}

/// Measures what an event of a line sends and tells, in place of an event of before. `Unfit` only where a packet isn't one of the
/// format.
pub fn measure(
    alloc: Global,
    line: u32,
    out: &Dispatch,
    encoder: &mut Encoder,
    event: &mut Measured,
) -> Result<(), BookFault>
    ensures letters { OnOk result (event.new.letters ≡ map packet_bytes out.now.packets) }
    ensures bytes { OnOk result (event.new.bytes ≡ total packet_size out.now.packets) }
    ensures text { OnOk result (event.new.text ≡ lines_text line out.now.records) }
    ensures fits { OnOk result (AllByRecursion (λ p. FitsPacket p) out.now.packets) }
    ensures unfit { result ≡ Err BookFault.Unfit → AllByRecursion (λ p. FitsIfCounted p) out.now.packets → ⊥ }
{
    let parts = out.parts();
    match put_letters(alloc, parts, encoder, &mut event.letters) {
        Ok(()) => {}
        Err(fault) => return Err(fault),
    }
    event.bytes = event.letters.size();
    match put_text(line, parts, &mut event.text) {
        Ok(()) => Ok(()),
        Err(_) => Err(BookFault::NoMemory),
    }
}
