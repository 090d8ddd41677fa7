// The bytes that a read gives, and what is durable: what stood in the ranges that were written since the last sync, before each
// write, is kept, and put back gives it. A sync forgets it. Where the ranges have more bytes than there is room for, what is durable is
// kept apart instead, as an array of its own.
ghost use Rattle.std.specs.Prelude.{◌≡◌, ◌≤◌, ◌<◌, ◌+◌, ◌^◌, ℕ, List, [], ◌∷◌, ◌++◌, length, replicate, slice_index, IfOk, true, false, cond, vec_capacity};
ghost use Rattle.disk_model.specs.Images.{overwritten, bytes_at, covers};
ghost use Rattle.disk_model.specs.Store.{unsynced_max, kept_max, AreInRange, SameOutside, bytes_in, put_back, durable_of, left_in, with_room, durable_with_room};

use crate::Leave;
use crate::sparse_bytes::SparseBytes;
use locus_ids::NoMemory;
use std::alloc::Global;

/// The ranges that may wait for a sync.
pub(crate) const ROOM: usize = 1_024;

/// So many bytes are kept of what stood in the ranges.
const KEPT: usize = 131_072;

/// A range of bytes of a disk.
#[derive(Clone, Copy, PartialEq, Eq)]
pub struct Span {
    pub at: u32,
    pub len: u32,
}

#[derive(Drop)]
pub(crate) struct Store {
    pub(crate) seen: SparseBytes,
    pub(crate) durable: SparseBytes,
    pub(crate) before: Vec<u8>,
    pub(crate) unsynced: Vec<Span>,
    pub(crate) is_apart: bool,
    ghost short: { length seen < 2 ^ 32 },
    ghost long: { length durable ≡ length seen },
    ghost room: { unsynced_max ≤ vec_capacity unsynced },
    ghost bytes_room: { kept_max ≤ vec_capacity before },
    ghost in_range: { AreInRange unsynced.items (length seen) },
    ghost kept: { is_apart ≡ false → length before.items ≡ bytes_in unsynced.items },
    ghost in_room: { length before.items ≤ kept_max },
    ghost same_length: { length (durable_of is_apart durable unsynced.items before.items seen) ≡ length seen },
    ghost synced: { SameOutside unsynced.items (durable_of is_apart durable unsynced.items before.items seen) seen },
}

impl Store {
    ghost use Rattle.std.specs.Prelude.{◌≡◌};
    ghost use Rattle.disk_model.specs.Durable.{durable_in};

    /// Zeros, all of them durable.
    pub(crate) fn new(alloc: Global, len: u32) -> Result<Store, NoMemory>
        ensures { IfOk result (λ store. (store.seen ≡ replicate len 0) × (durable_in store ≡ replicate len 0) × (store.unsynced.items ≡ [])) }
    {
        let seen = SparseBytes::new(alloc, len)?;
        let durable = SparseBytes::new(alloc, len)?;
        let before = Vec::with_capacity(alloc, KEPT)?;
        let unsynced = Vec::with_capacity(alloc, ROOM)?;
        Ok(Store {
            seen,
            durable,
            before,
            unsynced,
            is_apart: false,
        })
    }

    /// Makes durable what a read gives.
    pub(crate) fn sync(&mut self)
        ensures seen { self.new.seen ≡ self.old.seen }
        ensures durable { durable_in self.new ≡ self.old.seen }
        ensures unsynced { self.new.unsynced.items ≡ [] }
    {
        self.unsynced.clear();
        self.before.clear();
        self.is_apart = false;
    }

    /// Reads again what is durable.
    pub(crate) fn revert(&mut self)
        ensures seen { self.new.seen ≡ durable_in self.old }
        ensures durable { durable_in self.new ≡ durable_in self.old }
        ensures unsynced { self.new.unsynced.items ≡ [] }
    {
        restore(
            &mut self.seen,
            self.is_apart,
            &self.durable,
            &self.unsynced,
            &self.before,
        );
        self.unsynced.clear();
        self.before.clear();
        self.is_apart = false;
    }

    /// Writes this byte to the ranges that aren't synced, and makes all durable.
    pub(crate) fn spoil(&mut self, byte: u8)
        ensures length { length self.new.seen ≡ length self.old.seen }
        ensures seen { (k : ℕ) → slice_index self.new.seen k ≡ cond (covers self.old.unsynced.items k) byte (slice_index self.old.seen k) }
        ensures durable { durable_in self.new ≡ self.new.seen }
        ensures unsynced { self.new.unsynced.items ≡ [] }
    {
        fill_spans(&mut self.seen, &self.unsynced, byte);
        self.unsynced.clear();
        self.before.clear();
        self.is_apart = false;
    }

    /// Notes that a range is no longer durable. Where there is no room for a further one, all is made durable first.
    pub(crate) fn mark(&mut self, span: Span)
        requires { span.at + span.len ≤ length self.old.seen }
        ensures seen { self.new.seen ≡ self.old.seen }
        ensures durable { durable_in self.new ≡ durable_with_room self.old.unsynced.items (durable_in self.old) self.old.seen }
        ensures unsynced { self.new.unsynced.items ≡ with_room self.old.unsynced.items ++ span ∷ [] }
    {
        self.make_room();
        self.make_bytes_room(span.len as usize);
        self.keep(span);
    }

    fn make_room(&mut self)
        ensures seen { self.new.seen ≡ self.old.seen }
        ensures durable { durable_in self.new ≡ durable_with_room self.old.unsynced.items (durable_in self.old) self.old.seen }
        ensures unsynced { self.new.unsynced.items ≡ with_room self.old.unsynced.items }
        ensures room { length self.new.unsynced.items < unsynced_max }
    {
        if self.unsynced.len() >= ROOM {
            self.sync();
        }
    }

    /// Where there is no room for so many bytes more, what is durable is kept apart.
    #[inline]
    fn make_bytes_room(&mut self, count: usize)
        requires { count ≤ length self.old.seen }
        ensures seen { self.new.seen ≡ self.old.seen }
        ensures durable { durable_in self.new ≡ durable_in self.old }
        ensures unsynced { self.new.unsynced.items ≡ self.old.unsynced.items }
        ensures room { self.new.is_apart ≡ false → length self.new.before.items + count ≤ kept_max }
    {
        if !self.is_apart && self.before.len() + count > KEPT {
            self.keep_apart();
        }
    }

    /// From now on, up to the next sync, what is durable is kept apart.
    #[cold]
    #[inline(never)]
    fn keep_apart(&mut self)
        requires { self.old.is_apart ≡ false }
        ensures seen { self.new.seen ≡ self.old.seen }
        ensures durable { durable_in self.new ≡ durable_in self.old }
        ensures unsynced { self.new.unsynced.items ≡ self.old.unsynced.items }
        ensures apart { self.new.is_apart ≡ true }
    {
        let whole = Span {
            at: 0,
            len: self.seen.len(),
        };
        self.durable.copy(&self.seen, whole);
        put_back(&mut self.durable, &self.unsynced, &self.before);
        self.before.clear();
        self.is_apart = true;
    }

    /// What stands in a range is kept, before it is written.
    #[inline]
    fn keep(&mut self, span: Span)
        requires count { length self.old.unsynced.items < unsynced_max }
        requires bytes { self.old.is_apart ≡ false → length self.old.before.items + span.len ≤ kept_max }
        requires inside { span.at + span.len ≤ length self.old.seen }
        ensures seen { self.new.seen ≡ self.old.seen }
        ensures unsynced { self.new.unsynced.items ≡ self.old.unsynced.items ++ span ∷ [] }
        ensures durable { durable_in self.new ≡ durable_in self.old }
        ensures later { (bytes : List ℕ) → length bytes ≡ span.len → durable_of self.new.is_apart self.new.durable self.new.unsynced.items self.new.before.items (overwritten self.old.seen span.at bytes) ≡ durable_in self.old }
    {
        save_unless(self.is_apart, &self.seen, span, &mut self.before);
        self.unsynced.push_reserved(span);
    }

    /// Writes bytes at a place, which stay unsynced.
    #[inline]
    pub(crate) fn write(&mut self, at: u32, bytes: &[u8])
        requires { at + length bytes.now ≤ length self.old.seen }
        ensures seen { self.new.seen ≡ overwritten self.old.seen at bytes.now }
        ensures durable { durable_in self.new ≡ durable_with_room self.old.unsynced.items (durable_in self.old) self.old.seen }
        ensures unsynced { self.new.unsynced.items ≡ with_room self.old.unsynced.items ++ record { at = at; len = length bytes.now } ∷ [] }
    {
        if self.unsynced.len() < ROOM {
            self.write_in_room(at, bytes);
        } else {
            self.write_synced(at, bytes);
        }
    }

    /// Writes bytes at a place where there is room for a further range.
    #[inline]
    fn write_in_room(&mut self, at: u32, bytes: &[u8])
        requires room { length self.old.unsynced.items < unsynced_max }
        requires inside { at + length bytes.now ≤ length self.old.seen }
        ensures seen { self.new.seen ≡ overwritten self.old.seen at bytes.now }
        ensures durable { durable_in self.new ≡ durable_in self.old }
        ensures unsynced { self.new.unsynced.items ≡ self.old.unsynced.items ++ record { at = at; len = length bytes.now } ∷ [] }
    {
        let _seen = self.seen.len();
        self.make_bytes_room(bytes.len());
        self.keep(Span {
            at,
            len: bytes.len() as u32,
        });
        self.seen.write(at, bytes);
    }

    /// Makes all durable, and then writes bytes at a place.
    #[cold]
    #[inline(never)]
    fn write_synced(&mut self, at: u32, bytes: &[u8])
        requires { at + length bytes.now ≤ length self.old.seen }
        ensures seen { self.new.seen ≡ overwritten self.old.seen at bytes.now }
        ensures durable { durable_in self.new ≡ self.old.seen }
        ensures unsynced { self.new.unsynced.items ≡ record { at = at; len = length bytes.now } ∷ [] }
    {
        self.sync();
        self.write_in_room(at, bytes);
    }

    /// Writes a byte over a range, which stays unsynced.
    pub(crate) fn fill(&mut self, span: Span, byte: u8)
        requires { span.at + span.len ≤ length self.old.seen }
        ensures seen { self.new.seen ≡ overwritten self.old.seen span.at (replicate span.len byte) }
        ensures durable { durable_in self.new ≡ durable_with_room self.old.unsynced.items (durable_in self.old) self.old.seen }
        ensures unsynced { self.new.unsynced.items ≡ with_room self.old.unsynced.items ++ span ∷ [] }
    {
        self.make_room();
        self.make_bytes_room(span.len as usize);
        self.keep(span);
        self.seen.fill(span, byte);
    }

    /// Does what a stopped write leaves.
    #[cold]
    #[inline(never)]
    pub(crate) fn stop_write(&mut self, at: u32, bytes: &[u8], leave: Leave)
        requires { at + length bytes.now ≤ length self.old.seen }
        ensures seen { self.new.seen ≡ left_in leave self.old.seen at bytes.now }
        ensures durable { durable_in self.new ≡ durable_with_room self.old.unsynced.items (durable_in self.old) self.old.seen }
        ensures unsynced { self.new.unsynced.items ≡ with_room self.old.unsynced.items ++ record { at = at; len = length bytes.now } ∷ [] }
    {
        let _seen = self.seen.len();
        let span = Span {
            at,
            len: bytes.len() as u32,
        };
        match leave {
            Leave::Old => self.mark(span),
            Leave::New => self.write(at, bytes),
            Leave::Byte(byte) => self.fill(span, byte),
        }
    }
}

/// Writes bytes at a place. For one byte, as a gate is, nothing is called.
#[inline]
pub(crate) fn put(to: &mut [u8], at: usize, bytes: &[u8])
    requires { at + length bytes.now ≤ length to.old }
    ensures { to.new ≡ overwritten to.old at bytes.now }
{
    if bytes.len() == 1 {
        to[at] = bytes[0];
    } else {
        put_many(to, at, bytes);
    }
}

#[inline(never)]
fn put_many(to: &mut [u8], at: usize, bytes: &[u8])
    requires { at + length bytes.now ≤ length to.old }
    ensures { to.new ≡ overwritten to.old at bytes.now }
{
    let end = at + bytes.len();
    to[at..end].copy_from_slice(bytes);
}

/// Adds what stands in a range to what is kept, unless what is durable is kept apart.
#[inline]
fn save_unless(is_apart: bool, seen: &SparseBytes, span: Span, before: &mut Vec<u8>)
    requires inside { span.at + span.len ≤ length seen.now }
    requires fit { is_apart ≡ false → length before.old.items + span.len ≤ vec_capacity before.old }
    ensures items { before.new.items ≡ cond is_apart before.old.items (before.old.items ++ bytes_at seen.now span.at span.len) }
    ensures room { vec_capacity before.old ≤ vec_capacity before.new }
{
    if !is_apart {
        seen.save(span, before);
    }
}

/// Reads again what is durable.
fn restore(
    seen: &mut SparseBytes,
    is_apart: bool,
    durable: &SparseBytes,
    spans: &[Span],
    before: &[u8],
)
    requires long { length durable.now ≡ length seen.old }
    requires in_range { AreInRange spans.now (length seen.old) }
    requires kept { is_apart ≡ false → length before.now ≡ bytes_in spans.now }
    ensures { seen.new ≡ durable_of is_apart durable.now spans.now before.now seen.old }
{
    if is_apart {
        let whole = Span {
            at: 0,
            len: durable.len(),
        };
        seen.copy(durable, whole);
    } else {
        put_back(seen, spans, before);
    }
}

/// Puts back what stood in these ranges before they were written: that of the last one first.
fn put_back(seen: &mut SparseBytes, spans: &[Span], before: &[u8])
    requires in_range { AreInRange spans.now (length seen.old) }
    requires kept { length before.now ≡ bytes_in spans.now }
    ensures value { seen.new ≡ put_back spans.now before.now seen.old }
    ensures long { length seen.new ≡ length seen.old }
{
    let [span, later @ ..] = spans else {
        return;
    };
    let count = span.len as usize;
    put_back(seen, later, &before[count..]);
    seen.write(span.at, &before[..count]);
}

/// Writes this byte to these ranges.
fn fill_spans(to: &mut SparseBytes, spans: &[Span], byte: u8)
    requires in_range { AreInRange spans.now (length to.old) }
    ensures long { length to.new ≡ length to.old }
    ensures bytes { (k : ℕ) → slice_index to.new k ≡ cond (covers spans.now k) byte (slice_index to.old k) }
{
    for span in spans {
        to.fill(*span, byte);
    }
}
