ghost use Rattle.std.specs.Prelude.{◌≡◌, ℕ, ◌+◌, ◌≤◌, [], map, true, length, Err, IfOk, OnOk};
ghost use Rattle.std.specs.List.{AllByRecursion};
ghost use Rattle.wire_messages.specs.Packets.{FitsPacket, packet_bytes};
ghost use Rattle.packet_order.specs.Counts.{FitsIfCounted};
ghost use Rattle.packet_order.specs.Orders.{together};
ghost use Rattle.packet_mail.specs.Posts.{passes, loses, is_sent, next_number, IsKnown};
ghost use Rattle.run_book.specs.Ledgers.{no_ledger, limit_in, lines_text, with_event, with_event_unless, limit_of_sizes, books};
ghost use Rattle.run_book.specs.Writings.{counts_in};

use crate::counts::with_parts;
use crate::measures::{Measured, is_past, measure, send_all};
use crate::writing::add_written;
use crate::{BookFault, Passed, RunCounts, Writing};
use locus_ids::{Bytes, NoMemory};
use packet_mail::{MOST_BYTES, MOST_PACKETS, Mail};
use packet_order::{Dispatch, Part};
use std::alloc::Global;
use std::marker::Model;
use std::mem::replace;
use wire_writing::Encoder;

/// The bytes of text that the records of a run may have, written or not.
pub const MOST_TEXT: usize = 134_217_728;

/// The packets of a run, what is written of its records and nobody has taken yet, their counts, and the limit that an event passed.
#[derive(Drop)]
pub struct RunBook {
    mail: Mail,
    encoder: Encoder,
    event: Measured,
    writing: Writing,
    fresh: Bytes,
    counts: RunCounts,
    text: usize,
    passed: Option<Passed>,
}

impl Model for RunBook {
    ghost use Rattle.std.specs.Prelude.{◌≤◌};
    ghost use Rattle.run_book.specs.Ledgers.{Ledger, limit_in};
    ghost use Rattle.run_book.specs.Writings.{counts_in};

    ghost Value = { Ledger };

    ghost view = { λ b. record { post = b.mail; writing = b.writing; fresh = b.fresh; counts = counts_in b.counts; text = b.text; over = limit_in b.passed } };

    ghost invariant = { λ b. b.text ≤ 134217728 };
}

/// Nothing is sent and nothing told.
fn is_silent(out: &Dispatch) -> bool
    ensures { result ≡ true → out.now ≡ record { packets = []; records = [] } }
{
    out.parts().is_empty()
}

impl RunBook {
    ghost use Rattle.run_book.specs.Ledgers.{Ledger};

    /// Nothing has happened. Of what will happen the book writes this.
    pub fn new(alloc: Global, writing: Writing) -> Result<RunBook, NoMemory>
        ensures { IfOk result (λ book. book ≡ no_ledger writing) }
    {
        Ok(RunBook {
            mail: Mail::new(alloc)?,
            encoder: Encoder::new(alloc)?,
            event: Measured::new(alloc),
            writing,
            fresh: Bytes::new(alloc),
            counts: RunCounts::new(),
            text: 0,
            passed: None,
        })
    }

    /// The packets.
    pub fn mail(&self) -> &Mail
        ensures { result.now ≡ self.now.post }
    {
        &self.mail
    }

    fn allocator(&self) -> Global {
        self.fresh.allocator()
    }

    /// The limit that an event passed. Nothing happens after it.
    pub fn passed(&self) -> Option<Passed>
        ensures { limit_in result ≡ self.now.over }
    {
        self.passed
    }

    /// The counts of all records.
    pub fn counts(&self) -> RunCounts
        ensures { counts_in result ≡ self.now.counts }
    {
        self.counts
    }

    /// What is written and nobody has taken yet.
    pub fn fresh(&self) -> &[u8]
        ensures { result.now ≡ self.now.fresh }
    {
        self.fresh.as_slice()
    }

    /// What is written is taken.
    pub fn take_fresh(&mut self)
        ensures { self.new ≡ record self.old { fresh = [] } }
    {
        self.fresh.clear();
    }

    /// The lowest number of a packet under way whose circuit is up, given for each circuit whether it is.
    pub fn next(&self, up: &[bool]) -> Option<u32>
        requires { length up.now ≡ 256 }
        ensures value { result ≡ next_number up.now self.now.post }
        ensures known { AllByRecursion (IsKnown self.now.post) self.now.post.underway }
    {
        self.mail.next(up)
    }

    /// The packet of this number isn't under way any more, if it was.
    pub fn pass(&mut self, number: u32)
        ensures { self.new ≡ record self.old { post = passes number self.old.post } }
    {
        self.mail.pass(number);
    }

    /// The packet of this number is lost.
    pub fn lose(&mut self, number: u32) -> Result<(), NoMemory>
        requires { is_sent number self.old.post ≡ true }
        ensures { OnOk result (self.new ≡ record self.old { post = loses number self.old.post }) }
    {
        self.mail.lose(number)?;
        Ok(())
    }

    /// The limit that an event with so many packets, bytes of packets and bytes of text passes, if it passes one.
    fn limit_of(&self, packets: usize, bytes: usize, text: usize) -> Option<Passed>
        ensures { limit_in result ≡ limit_of_sizes packets bytes text self.now }
    {
        if is_past(MOST_PACKETS as usize, self.mail.packets() as usize, packets) {
            Some(Passed::Packets)
        } else if is_past(MOST_BYTES, self.mail.bytes(), bytes) {
            Some(Passed::Bytes)
        } else if is_past(MOST_TEXT, self.text, text) {
            Some(Passed::Trace)
        } else {
            None
        }
    }

    /// The event is within the limits.
    fn put(&mut self, parts: &[Part], event: &Measured) -> Result<(), BookFault>
        requires fits { AllByRecursion (λ p. FitsPacket p) (together parts.now).packets }
        requires letters { event.now.letters ≡ map packet_bytes (together parts.now).packets }
        requires room { self.old.text + length event.now.text ≤ 134217728 }
        ensures ok { (n : ℕ) → event.now.text ≡ lines_text n (together parts.now).records → OnOk result (self.new ≡ with_event n (together parts.now).packets (together parts.now).records self.old) }
        ensures unfit { result ≡ Err BookFault.Unfit → ⊥ }
    {
        send_all(&mut self.mail, parts, &event.letters)?;
        let Ok(counts) = with_parts(self.counts, parts) else {
            return Err(BookFault::NoMemory);
        };
        if add_written(self.writing, parts, &event.text, &mut self.fresh).is_err() {
            return Err(BookFault::NoMemory);
        }
        self.counts = counts;
        self.text += event.text.len();
        Ok(())
    }

    /// An event that was measured, with its limit tested.
    fn enter(&mut self, parts: &[Part], event: &Measured) -> Result<(), BookFault>
        requires fits { AllByRecursion (λ p. FitsPacket p) (together parts.now).packets }
        requires letters { event.now.letters ≡ map packet_bytes (together parts.now).packets }
        ensures ok { (n : ℕ) → event.now.text ≡ lines_text n (together parts.now).records → OnOk result (self.new ≡ with_event_unless (limit_of_sizes (length event.now.letters) event.now.bytes (length event.now.text) self.old) n (together parts.now).packets (together parts.now).records self.old) }
        ensures unfit { result ≡ Err BookFault.Unfit → ⊥ }
    {
        match self.limit_of(event.letters.len(), event.bytes, event.text.len()) {
            Some(limit) => {
                self.passed = Some(limit);
                Ok(())
            }
            None => self.put(parts, event),
        }
    }

    /// An event that gives nothing, which passes no limit that wasn't passed before.
    #[tactic(auto, using(crate::proofs::Kept::nothing_more))]
    fn enter_nothing(&mut self)
        ensures { (n : ℕ) → self.new ≡ with_event_unless (limit_of_sizes 0 0 0 self.old) n [] [] self.old }
    {
        let Some(limit) = self.limit_of(0, 0, 0) else {
            return;
        };
        self.passed = Some(limit);
    }

    /// An event of a line sends packets and tells records: all of them where it passes no limit, and none where it does.
    pub fn happened(&mut self, line: u32, out: &Dispatch) -> Result<(), BookFault>
        ensures ok { OnOk result (self.new ≡ books line out.now.packets out.now.records self.old) }
        ensures unfit { result ≡ Err BookFault.Unfit → AllByRecursion (λ p. FitsIfCounted p) out.now.packets → ⊥ }
    {
        if self.passed().is_some() {
            return Ok(());
        }
        // Most events give nothing: nothing is measured for them.
        if is_silent(out) {
            self.enter_nothing();
            return Ok(());
        }
        let alloc = self.allocator();
        match measure(alloc, line, out, &mut self.encoder, &mut self.event) {
            Ok(()) => {}
            Err(fault) => return Err(fault),
        }
        let event = replace(&mut self.event, Measured::new(alloc));
        self.enter(out.parts(), &event)?;
        self.event = event;
        Ok(())
    }
}
