ghost use Rattle.std.specs.Prelude.{◌≡◌, ◌≢◌, ℕ, ◌+◌, ◌<◌, ◌≤◌, List, ◌++◌, map, true, is_some, length, slice_range, Ok, Err, Some, None, IfOk, IfErr, IfSome, OnOk, OnErr};
ghost use Rattle.std.specs.List.{AllByRecursion};
ghost use Rattle.wire_messages.specs.Bodies.{kind_of};
ghost use Rattle.wire_messages.specs.Packets.{IsPacket};
ghost use Rattle.packet_mail.specs.Posts.{Post, no_post, posts, limit_of_packets, passes, loses, sent_at, is_sent, is_lost, is_underway, number_in, packet_in, next_number, sender_in, receiver_in, pending_of, IsKnown};
ghost use Rattle.packet_mail.specs.Letters.{packet_of_bytes, post_of, InOrder, TellsLost, IsLetter, IsSpelled, AddsTo};
ghost use Rattle.packet_queue.specs.of_role_steps.Tables.{total};
ghost use Rattle.wire_reading.specs.declared.decoder.NotAPacket.{NotAPacket};

use crate::kinds::kind_of_letter;
pub use crate::letters::MOST_BYTES;
use crate::letters::{circuit_of_letter, part, put_letters};
use crate::{Letters, MailFault};
use circuits::{receiver_on, sender_on};
use locus_ids::{Bytes, ItemList, NoMemory, SiteId};
use packet_queue::{NUMBERS, PacketQueue, filled};
use std::alloc::Global;
use std::marker::Model;
use trace_book::PacketKind;
use wire_messages::Packet;
use wire_reading::{NotAPacket, decode};

/// The packets that a run may send.
pub const MOST_PACKETS: u32 = 262_144;

/// A packet under way, as the schedule's listing tells it.
#[derive(Clone, Copy)]
pub struct PendingPacket {
    pub number: u32,
    pub from: SiteId,
    pub to: SiteId,
    pub kind: PacketKind,
}

/// Packets under way, their numbers ascending.
pub type Pending = ItemList<PendingPacket>;

/// All packets sent, each with its number, from 1 in the order of sending. Number 0 stands for no packet.
#[derive(Drop)]
pub struct Mail {
    queue: PacketQueue,
    ends: Vec<u32>,
    log: Bytes,
    lost: Vec<u32>,
    lost_marks: Vec<bool>,
}

impl Model for Mail {
    ghost use Rattle.std.specs.Prelude.{reverse};
    ghost use Rattle.packet_mail.specs.Posts.{Post};
    ghost use Rattle.packet_mail.specs.Letters.{post_of, InOrder, TellsLost};

    ghost Value = { Post };

    ghost view = { λ m. post_of m.queue m.ends.items m.log m.lost.items };

    ghost invariant = { λ m. InOrder m.queue m.ends.items m.log × TellsLost m.lost_marks.items (reverse m.lost.items) };
}

/// Adds packets, whose bytes stand behind so many of the log.
fn add_all(queue: &mut PacketQueue, ends: &mut Vec<u32>, letters: &Letters, before: usize)
    requires room { length queue.old.circuits + length letters.now ≤ 262145 }
    requires table { length ends.old.items ≡ 262145 }
    requires size { before + total length letters.now ≤ 134217728 }
    requires spelled { AllByRecursion IsSpelled letters.now }
    ensures { AddsTo before letters.now queue.old ends.old.items queue.new ends.new.items }
{
    let mut end = before;
    for i in 0..letters.len() {
        let letter = letters.letter(i);
        end += letter.len();
        let number = queue.len();
        ends[number as usize] = end as u32;
        queue.add(circuit_of_letter(letter));
    }
}

impl Mail {
    ghost use Rattle.packet_mail.specs.Posts.{Post};

    /// Nothing is sent.
    pub fn new(alloc: Global) -> Result<Mail, NoMemory>
        ensures { IfOk result (λ mail. mail ≡ no_post) }
    {
        let mut queue = PacketQueue::new(alloc)?;
        queue.add(0);
        queue.take(0);
        Ok(Mail {
            queue,
            ends: filled(alloc, NUMBERS as usize, 0)?,
            log: Bytes::new(alloc),
            lost: Vec::new(alloc),
            lost_marks: filled(alloc, NUMBERS as usize, false)?,
        })
    }

    /// The number of packets sent.
    pub fn packets(&self) -> u32
        ensures value { result ≡ self.now.packets }
        ensures most { result ≤ 262144 }
    {
        self.queue.len() - 1
    }

    /// The number of bytes of the packets sent.
    pub fn bytes(&self) -> usize
        ensures value { result ≡ self.now.bytes }
        ensures most { result ≤ 134217728 }
    {
        self.log.len()
    }

    /// Sends packets, whose bytes these are, with the next numbers: all of them, or, after a fault, none.
    pub fn put_all(&mut self, letters: &Letters) -> Result<(), MailFault>
        requires { AllByRecursion IsSpelled letters.now }
        ensures ok { OnOk result (self.new ≡ posts (map packet_of_bytes letters.now) self.old) }
        ensures room { OnOk result (limit_of_packets (map packet_of_bytes letters.now) self.old ≡ None) }
        ensures err { OnErr result (self.new ≡ self.old) }
        ensures full { result ≡ Err MailFault.Full → limit_of_packets (map packet_of_bytes letters.now) self.old ≢ None }
        ensures fits { result ≢ Err MailFault.Unfit }
    {
        let room = (NUMBERS - self.queue.len()) as usize;
        if letters.len() > room {
            return Err(MailFault::Full);
        }
        let before = self.log.len();
        put_letters(&mut self.log, letters.row())?;
        add_all(&mut self.queue, &mut self.ends, letters, before);
        Ok(())
    }

    /// A packet of this number was sent.
    pub fn is_sent(&self, number: u32) -> bool
        ensures { result ≡ is_sent number self.now }
    {
        number != 0 && number < self.queue.len()
    }

    /// The packet of this number is lost.
    pub fn is_lost(&self, number: u32) -> bool
        requires { is_sent number self.now ≡ true }
        ensures { result ≡ is_lost number self.now }
    {
        self.lost_marks[number as usize]
    }

    /// The packet of this number is under way: neither delivered nor lost.
    pub fn is_underway(&self, number: u32) -> bool
        ensures { result ≡ is_underway number self.now }
    {
        number < self.queue.len() && self.queue.is_underway(number)
    }

    /// The lowest number of a packet under way whose circuit is up, given for each circuit whether it is.
    pub fn next(&self, up: &[bool]) -> Option<u32>
        requires { length up.now ≡ 256 }
        ensures value { result ≡ next_number up.now self.now }
        ensures known { AllByRecursion (IsKnown self.now) self.now.underway }
    {
        self.queue.next(up)
    }

    /// The packet of this number isn't under way any more, if it was.
    pub fn pass(&mut self, number: u32)
        ensures { self.new ≡ passes number self.old }
    {
        if number < self.queue.len() {
            self.queue.take(number);
        }
    }

    /// The packet of this number is lost.
    pub fn lose(&mut self, number: u32) -> Result<(), NoMemory>
        requires { is_sent number self.old ≡ true }
        ensures { OnOk result (self.new ≡ loses number self.old) }
    {
        self.lost.push(number)?;
        self.lost_marks[number as usize] = true;
        self.queue.take(number);
        Ok(())
    }

    /// The bytes of the packet of this number.
    pub fn letter(&self, number: u32) -> &[u8]
        requires { is_sent number self.now ≡ true }
        ensures bytes { IfSome (sent_at number self.now) (λ x. IsPacket result.now x.packet) }
        ensures short { length result.now ≤ 134217728 }
    {
        let start = self.ends[number as usize - 1] as usize;
        let end = self.ends[number as usize] as usize;
        part(self.log.as_slice(), start, end)
    }

    /// The packet of this number. It is given as the decoder gives it, so that it isn't moved on the way.
    pub fn packet(&self, alloc: Global, number: u32) -> Result<Packet, NotAPacket>
        requires { is_sent number self.now ≡ true }
        ensures found { IfOk result (λ packet. Some packet ≡ packet_in (sent_at number self.now)) }
        ensures memory { IfErr result (λ fault. fault ≡ NotAPacket.NoMemory) }
    {
        decode(alloc, self.letter(number))
    }

    /// The kind of the packet of this number.
    pub fn kind(&self, number: u32) -> PacketKind
        requires { is_sent number self.now ≡ true }
        ensures { IfSome (sent_at number self.now) (λ x. result ≡ kind_of x.packet.body) }
    {
        kind_of_letter(self.letter(number))
    }

    /// The sender of the packet of this number, or `None` exactly where none was sent.
    pub fn sender(&self, number: u32) -> Option<SiteId>
        ensures { result ≡ sender_in (sent_at number self.now) }
    {
        if !self.is_sent(number) {
            return None;
        }
        sender_on(self.queue.circuit(number))
    }

    /// The receiver of the packet of this number, or `None` exactly where none was sent.
    pub fn receiver(&self, number: u32) -> Option<SiteId>
        ensures { result ≡ receiver_in (sent_at number self.now) }
    {
        if !self.is_sent(number) {
            return None;
        }
        receiver_on(self.queue.circuit(number))
    }

    /// What the schedule's listing tells of a packet that was sent.
    fn listed(&self, number: u32) -> Result<PendingPacket, NoMemory>
        requires { is_sent number self.now ≡ true }
        ensures { IfOk result (λ listed. IfSome (sent_at number self.now) (λ x. listed ≡ pending_of x)) }
    {
        let (Some(from), Some(to)) = (self.sender(number), self.receiver(number)) else {
            return Err(NoMemory);
        };
        let kind = self.kind(number);
        Ok(PendingPacket {
            number,
            from,
            to,
            kind,
        })
    }

    /// The packets under way, their numbers ascending.
    pub fn pending(&self, alloc: Global) -> Result<Pending, NoMemory>
        ensures { IfOk result (λ pending. pending ≡ map pending_of self.now.underway) }
    {
        let mut pending = Pending::new(alloc);
        for number in 1..self.queue.len() {
            if self.queue.is_underway(number) {
                pending.push(self.listed(number)?)?;
            }
        }
        Ok(pending)
    }
}
