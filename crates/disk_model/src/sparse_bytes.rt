// A disk's bytes, of which only those that were written are kept.
ghost use Rattle.std.specs.Prelude.{◌≡◌, ◌≤◌, ◌<◌, ◌+◌, ℕ, [], ◌∷◌, ◌++◌, length, replicate, slice_index, IsTrue, ◌%◌, IfOk, IfSome, vec_capacity};
ghost use Rattle.disk_model.specs.Images.{overwritten, bytes_at};

use crate::chunk::{CHUNK, Chunk};
use crate::store::Span;
use locus_ids::NoMemory;
use std::alloc::Global;
use std::marker::Model;

/// Ranges are filled and copied in pieces of so many bytes.
const PIECE: u32 = 512;

/// Bytes of a fixed number, in chunks. The memory for all of them is taken at once; the part of it that is touched grows
/// with what is written.
#[derive(Drop)]
pub(crate) struct SparseBytes {
    chunks: Vec<Chunk>,
    len: u32,
}

impl Model for SparseBytes {
    ghost use Rattle.std.specs.Prelude.{List, ℕ, ◌<◌, ◌*◌, length};
    ghost use Rattle.disk_model.specs.SparseBytes.{bytes_of};

    ghost Value = { List ℕ };

    ghost view = { λ b. bytes_of b.chunks.items 0 b.len };

    ghost invariant = { λ b. b.len < 1048576 * length b.chunks.items };
}

impl SparseBytes {
    /// Zeros.
    pub(crate) fn new(alloc: Global, len: u32) -> Result<SparseBytes, NoMemory>
        ensures { IfOk result (λ bytes. bytes ≡ replicate len 0) }
    {
        let count = len as usize / CHUNK + 1;
        let mut chunks = Vec::with_capacity(alloc, count)?;
        for _ in 0..count {
            chunks.push_reserved(Chunk::new(alloc)?);
        }
        Ok(SparseBytes { chunks, len })
    }

    /// The number of bytes.
    pub(crate) fn len(&self) -> u32
        ensures { result ≡ length self.now }
    {
        self.len
    }

    /// Writes bytes at a place.
    #[inline]
    pub(crate) fn write(&mut self, at: u32, bytes: &[u8])
        requires { at + length bytes.now ≤ length self.old }
        ensures { self.new ≡ overwritten self.old at bytes.now }
    {
        if bytes.len() <= CHUNK - at as usize % CHUNK {
            self.write_within(at as usize, bytes);
        } else {
            self.write_across(at as usize, bytes);
        }
    }

    /// Writes bytes at a place, where all of them fall into one chunk.
    #[inline]
    fn write_within(&mut self, at: usize, bytes: &[u8])
        requires inside { at + length bytes.now ≤ length self.old }
        requires chunk { at % 1048576 + length bytes.now ≤ 1048576 }
        ensures { self.new ≡ overwritten self.old at bytes.now }
    {
        self.chunks[at / CHUNK].write(at % CHUNK, bytes);
    }

    /// Writes bytes, those of each chunk by themselves.
    #[cold]
    #[inline(never)]
    fn write_across(&mut self, at: usize, bytes: &[u8])
        requires { at + length bytes.now ≤ length self.old }
        ensures { self.new ≡ overwritten self.old at bytes.now }
    {
        let _len = self.len();
        let mut done = 0;
        while done < bytes.len() {
            let room = CHUNK - (at + done) % CHUNK;
            let end = done + room.min(bytes.len() - done);
            self.write_within(at + done, &bytes[done..end]);
            done = end;
        }
    }

    /// Writes a byte over a range.
    pub(crate) fn fill(&mut self, span: Span, byte: u8)
        requires { span.at + span.len ≤ length self.old }
        ensures { self.new ≡ overwritten self.old span.at (replicate span.len byte) }
    {
        let _len = self.len();
        let bytes = [byte; PIECE as usize];
        let mut done = 0;
        while done < span.len {
            let end = done + PIECE.min(span.len - done);
            self.write(span.at + done, &bytes[..(end - done) as usize]);
            done = end;
        }
    }

    /// Writes what another disk's bytes are in a range.
    pub(crate) fn copy(&mut self, from: &SparseBytes, span: Span)
        requires long { length self.old ≡ length from.now }
        requires inside { span.at + span.len ≤ length from.now }
        ensures { self.new ≡ overwritten self.old span.at (bytes_at from.now span.at span.len) }
    {
        match from.run(span.at as usize, span.len as usize) {
            Some(bytes) => self.write(span.at, bytes),
            None => self.copy_pieces(from, span),
        }
    }

    /// Copies a range piece by piece.
    #[inline(never)]
    fn copy_pieces(&mut self, from: &SparseBytes, span: Span)
        requires long { length self.old ≡ length from.now }
        requires inside { span.at + span.len ≤ length from.now }
        ensures { self.new ≡ overwritten self.old span.at (bytes_at from.now span.at span.len) }
    {
        let _len = self.len();
        let mut done = 0;
        while done < span.len {
            let end = done + PIECE.min(span.len - done);
            self.copy_piece(from, span.at + done, end - done);
            done = end;
        }
    }

    /// Copies a range of few bytes. One that is blank in both is left so.
    #[inline]
    fn copy_piece(&mut self, from: &SparseBytes, at: u32, len: u32)
        requires few { len ≤ 512 }
        requires long { length self.old ≡ length from.now }
        requires inside { at + len ≤ length from.now }
        ensures { self.new ≡ overwritten self.old at (bytes_at from.now at len) }
    {
        let _len = self.len();
        if from.is_blank(at as usize, len as usize) && self.is_blank(at as usize, len as usize) {
            return;
        }
        let mut bytes = [0; PIECE as usize];
        let piece = &mut bytes[..len as usize];
        from.read(at, piece);
        self.write(at, piece);
    }

    /// Adds the bytes of a range to others, for which there is memory.
    #[inline]
    pub(crate) fn save(&self, span: Span, to: &mut Vec<u8>)
        requires inside { span.at + span.len ≤ length self.now }
        requires fit { length to.old.items + span.len ≤ vec_capacity to.old }
        ensures items { to.new.items ≡ to.old.items ++ bytes_at self.now span.at span.len }
        ensures room { vec_capacity to.old ≤ vec_capacity to.new }
    {
        match self.run(span.at as usize, span.len as usize) {
            Some(bytes) => append(to, bytes),
            None => self.save_pieces(span, to),
        }
    }

    /// Adds the bytes of a range piece by piece.
    #[inline(never)]
    fn save_pieces(&self, span: Span, to: &mut Vec<u8>)
        requires inside { span.at + span.len ≤ length self.now }
        requires fit { length to.old.items + span.len ≤ vec_capacity to.old }
        ensures items { to.new.items ≡ to.old.items ++ bytes_at self.now span.at span.len }
        ensures room { vec_capacity to.old ≤ vec_capacity to.new }
    {
        let _len = self.len();
        let mut bytes = [0; PIECE as usize];
        let mut done = 0;
        while done < span.len {
            let end = done + PIECE.min(span.len - done);
            let piece = &mut bytes[..(end - done) as usize];
            self.read(span.at + done, piece);
            append(to, piece);
            done = end;
        }
    }

    /// Reads the bytes from a place on.
    pub(crate) fn read(&self, at: u32, buf: &mut [u8])
        requires { at + length buf.old ≤ length self.now }
        ensures { buf.new ≡ bytes_at self.now at (length buf.old) }
    {
        let from = at as usize;
        match self.run(from, buf.len()) {
            Some(bytes) => buf.copy_from_slice(bytes),
            None => self.read_rest(from, buf),
        }
    }

    /// Reads bytes that aren't all kept in one chunk.
    #[inline(never)]
    fn read_rest(&self, at: usize, buf: &mut [u8])
        requires { at + length buf.old ≤ length self.now }
        ensures { buf.new ≡ bytes_at self.now at (length buf.old) }
    {
        if self.is_blank(at, buf.len()) {
            buf.fill(0);
        } else {
            self.read_each(at, buf);
        }
    }

    /// Reads bytes one by one.
    #[cold]
    #[inline(never)]
    fn read_each(&self, at: usize, buf: &mut [u8])
        requires { at + length buf.old ≤ length self.now }
        ensures { buf.new ≡ bytes_at self.now at (length buf.old) }
    {
        let _len = self.len();
        for i in 0..buf.len() {
            buf[i] = self.byte(at + i);
        }
    }

    /// The byte at a place.
    fn byte(&self, at: usize) -> u8
        requires { at < length self.now }
        ensures { result ≡ slice_index self.now at }
    {
        self.chunks[at / CHUNK].byte(at % CHUNK)
    }

    /// The bytes from a place on, where all of them are kept in one chunk.
    fn run(&self, at: usize, len: usize) -> Option<&[u8]>
        requires { at + len ≤ length self.now }
        ensures { IfSome result (λ bytes. bytes.now ≡ bytes_at self.now at len) }
    {
        let from = at % CHUNK;
        if len > CHUNK - from {
            return None;
        }
        self.chunks[at / CHUNK].run(from, len)
    }

    /// All these bytes stand in one chunk, and are zeros that were never written.
    fn is_blank(&self, at: usize, len: usize) -> bool
        requires { at + len ≤ length self.now }
        ensures { IsTrue result → bytes_at self.now at len ≡ replicate len 0 }
    {
        let from = at % CHUNK;
        len <= CHUNK - from && self.chunks[at / CHUNK].is_blank_from(from)
    }
}

/// Adds bytes to others, for which there is memory.
#[inline]
fn append(to: &mut Vec<u8>, bytes: &[u8])
    requires fit { length to.old.items + length bytes.now ≤ vec_capacity to.old }
    ensures items { to.new.items ≡ to.old.items ++ bytes.now }
    ensures room { vec_capacity to.old ≤ vec_capacity to.new }
{
    let _ = to.extend_from_slice(bytes);
}
