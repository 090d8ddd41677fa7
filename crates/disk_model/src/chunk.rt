// A part of a disk's bytes, which is kept up to the last byte that was written.
ghost use Rattle.std.specs.Prelude.{◌≡◌, ◌≤◌, ◌+◌, ◌-◌, ℕ, [], length, slice_index, nat_le, IfOk, IfSome, IsTrue, cond, max, vec_capacity};
ghost use Rattle.disk_model.specs.Images.{is_within, bytes_at};

use crate::store::put;
use locus_ids::NoMemory;
use std::alloc::Global;
use std::marker::Model;

/// The bytes of a chunk. What a storage keeps so far apart grows in chunks of its own.
pub(crate) const CHUNK: usize = 1_048_576;

/// Zeros are added in pieces of so many bytes.
const PIECE: usize = 1_024;

/// The bytes of a chunk up to the last one that was written; those behind it are zeros. Its memory is taken when it is made,
/// and no byte of it is touched before it is written.
#[derive(Drop)]
pub(crate) struct Chunk {
    written: Vec<u8>,
}

impl Model for Chunk {
    ghost use Rattle.std.specs.Prelude.{List, ℕ, ◌≤◌, length, vec_capacity};

    ghost Value = { List ℕ };

    ghost view = { λ c. c.written.items };

    ghost invariant = { λ c. (1048576 ≤ vec_capacity c.written) × (length c.written.items ≤ 1048576) };
}

impl Chunk {
    /// Zeros.
    pub(crate) fn new(alloc: Global) -> Result<Chunk, NoMemory>
        ensures { IfOk result (λ chunk. chunk ≡ []) }
    {
        let written = Vec::with_capacity(alloc, CHUNK)?;
        Ok(Chunk { written })
    }

    /// Writes bytes at a place.
    #[inline]
    pub(crate) fn write(&mut self, at: usize, bytes: &[u8])
        requires { at + length bytes.now ≤ 1048576 }
        ensures { (k : ℕ) → slice_index self.new k ≡ cond (is_within at (length bytes.now) k) (slice_index bytes.now (k - at)) (slice_index self.old k) }
    {
        if at + bytes.len() <= self.written.len() {
            put(&mut self.written, at, bytes);
        } else {
            self.write_behind(at, bytes);
        }
    }

    /// Writes bytes of which some are behind those that are kept. Zeros there are not kept.
    #[inline(never)]
    fn write_behind(&mut self, at: usize, bytes: &[u8])
        requires { at + length bytes.now ≤ 1048576 }
        ensures { (k : ℕ) → slice_index self.new k ≡ cond (is_within at (length bytes.now) k) (slice_index bytes.now (k - at)) (slice_index self.old k) }
    {
        if at >= self.written.len() && are_zeros(bytes) {
            return;
        }
        grow(&mut self.written, at + bytes.len());
        put(&mut self.written, at, bytes);
    }

    /// The byte at a place.
    pub(crate) fn byte(&self, at: usize) -> u8
        ensures { result ≡ slice_index self.now at }
    {
        match self.written.get(at) {
            Some(byte) => *byte,
            None => 0,
        }
    }

    /// The bytes from a place on, where all of them are kept.
    pub(crate) fn run(&self, at: usize, len: usize) -> Option<&[u8]>
        requires { at + len ≤ 1048576 }
        ensures bytes { IfSome result (λ bytes. bytes.now ≡ bytes_at self.now at len) }
        ensures inside { IfSome result (λ _. at + len ≤ length self.now) }
    {
        let end = at + len;
        if end <= self.written.len() {
            Some(&self.written[at..end])
        } else {
            None
        }
    }

    /// All bytes from a place on are zeros that were never written.
    pub(crate) fn is_blank_from(&self, at: usize) -> bool
        ensures { result ≡ nat_le (length self.now) at }
    {
        self.written.len() <= at
    }
}

/// Adds zeros up to a place, where there are fewer bytes.
#[inline]
fn grow(written: &mut Vec<u8>, end: usize)
    requires { end ≤ vec_capacity written.old }
    ensures kept { (k : ℕ) → slice_index written.new.items k ≡ slice_index written.old.items k }
    ensures long { length written.new.items ≡ max (length written.old.items) end }
    ensures room { vec_capacity written.old ≤ vec_capacity written.new }
{
    if written.len() < end {
        fill_up(written, end);
    }
}

/// Adds zeros up to a place, piece by piece.
fn fill_up(written: &mut Vec<u8>, end: usize)
    requires behind { length written.old.items ≤ end }
    requires fit { end ≤ vec_capacity written.old }
    ensures kept { (k : ℕ) → slice_index written.new.items k ≡ slice_index written.old.items k }
    ensures long { length written.new.items ≡ end }
    ensures room { vec_capacity written.old ≤ vec_capacity written.new }
{
    while written.len() < end {
        let count = PIECE.min(end - written.len());
        add_zeros(written, count);
    }
}

/// Adds so many zeros, which take no memory that isn't there.
#[inline]
fn add_zeros(written: &mut Vec<u8>, count: usize)
    requires few { count ≤ 1024 }
    requires fit { length written.old.items + count ≤ vec_capacity written.old }
    ensures kept { (k : ℕ) → slice_index written.new.items k ≡ slice_index written.old.items k }
    ensures long { length written.new.items ≡ length written.old.items + count }
    ensures room { vec_capacity written.old ≤ vec_capacity written.new }
{
    let zeros = [0; PIECE];
    let _ = written.extend_from_slice(&zeros[..count]);
}

/// All of these bytes are zeros.
fn are_zeros(bytes: &[u8]) -> bool
    ensures { IsTrue result → (k : ℕ) → slice_index bytes.now k ≡ 0 }
{
    let mut bits = 0;
    for byte in bytes {
        bits |= *byte;
    }
    bits == 0
}
