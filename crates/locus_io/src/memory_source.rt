ghost use Rattle.std.specs.Prelude.{◌≡◌, ◌+◌, ◌-◌, ◌<◌, ◌≤◌, [], ◌++◌, min, not, length, take, drop, is_ok, IsOk, IfOk, Some};
ghost use Rattle.std.specs.Io.{ReadsAtMost};
ghost use Rattle.std.specs.Io.KnownBytes.{ReadConsumes};
ghost use Rattle.locus_io.specs.Causes.{one_more, HasCause};
ghost use Rattle.locus_io.specs.Memory.{is_listed};

use crate::{ReadFault, Source};
use locus_ids::Bytes;
use std::marker::Model;

/// Bytes in memory, of which the listed calls fail.
#[derive(Drop)]
pub struct MemSource {
    bytes: Bytes,
    at: usize,
    fails: Bytes,
    calls: u64,
    faults: u64,
}

impl Model for MemSource {
    ghost use Rattle.std.specs.Prelude.{ℕ, ◌≤◌, length, drop};
    ghost use Rattle.locus_io.specs.Memory.{Feed};

    ghost Value = { Feed };

    ghost view = { λ s. record { left = drop s.at s.bytes; fails = s.fails; calls = s.calls; faults = s.faults } };

    ghost invariant = { λ s. s.at ≤ length s.bytes };
}

impl MemSource {
    /// A source of these bytes. `fails` lists the numbers of the calls that fail, from 1.
    pub fn new(bytes: Bytes, fails: Bytes) -> MemSource
        ensures { result ≡ record { left = bytes; fails = fails; calls = 0; faults = 0 } }
    {
        MemSource {
            bytes,
            at: 0,
            fails,
            calls: 0,
            faults: 0,
        }
    }
}

/// The call of this number is to fail.
pub(crate) fn lists(fails: &Bytes, call: u64) -> bool
    ensures { result ≡ is_listed fails.now call }
{
    fails.as_slice().iter().any(|n| u64::from(*n) == call)
}

/// Copies as many bytes as both have room for, and says how many.
fn copy_front(from: &[u8], to: &mut [u8]) -> usize
    ensures count { result ≡ min (length from.now) (length to.old) }
    ensures copied { to.new ≡ take result from.now ++ drop result to.old }
{
    let n = from.len().min(to.len());
    to[..n].copy_from_slice(&from[..n]);
    n
}

/// Copies bytes from a place on, as many as there is room for, and says how many.
fn copy_from(bytes: &[u8], at: usize, to: &mut [u8]) -> usize
    requires { at ≤ length bytes.now }
    ensures count { result ≡ min (length bytes.now - at) (length to.old) }
    ensures moved { drop at bytes.now ≡ take result to.new ++ drop (at + result) bytes.now }
    ensures end { result ≡ 0 → 0 < length to.new → drop (at + result) bytes.now ≡ [] }
{
    copy_front(&bytes[at..], to)
}

impl Source for MemSource {
    ghost left = { λ s. Some s.left };

    ghost faults = { λ s. s.faults };

    fn take(&mut self, buf: &mut [u8]) -> Result<usize, ReadFault>
        ensures bound { ReadsAtMost result buf.new }
        ensures bytes { ReadConsumes (Some self.old.left) (Some self.new.left) result buf.new }
        ensures cause { HasCause self.old.faults self.new.faults result }
        ensures counted { self.new.calls ≡ one_more self.old.calls }
        ensures fails { is_ok result ≡ not (is_listed self.old.fails self.new.calls) }
        ensures same { self.new.fails ≡ self.old.fails }
        ensures most { IfOk result (λ n. n ≡ min (length self.old.left) (length buf.old)) }
    {
        self.calls = self.calls.saturating_add(1);
        if lists(&self.fails, self.calls) {
            self.faults = self.faults.saturating_add(1);
            return Err(ReadFault::Failed);
        }
        let n = copy_from(self.bytes.as_slice(), self.at, buf);
        self.at += n;
        Ok(n)
    }
}

/// Bytes in memory. No call fails.
#[derive(Drop)]
pub struct SureSource {
    bytes: Bytes,
    at: usize,
}

impl Model for SureSource {
    ghost use Rattle.std.specs.Prelude.{ℕ, ◌≤◌, List, length, drop};

    ghost Value = { List ℕ };

    ghost view = { λ s. drop s.at s.bytes };

    ghost invariant = { λ s. s.at ≤ length s.bytes };
}

impl SureSource {
    /// A source of these bytes.
    pub fn new(bytes: Bytes) -> SureSource
        ensures { result ≡ bytes }
    {
        SureSource { bytes, at: 0 }
    }
}

impl Source for SureSource {
    ghost left = { λ left. Some left };

    ghost faults = { λ _. 0 };

    fn take(&mut self, buf: &mut [u8]) -> Result<usize, ReadFault>
        ensures bound { ReadsAtMost result buf.new }
        ensures bytes { ReadConsumes (Some self.old) (Some self.new) result buf.new }
        ensures cause { HasCause 0 0 result }
        ensures sure { IsOk result }
        ensures most { IfOk result (λ n. n ≡ min (length self.old) (length buf.old)) }
    {
        let n = copy_from(self.bytes.as_slice(), self.at, buf);
        self.at += n;
        Ok(n)
    }
}
