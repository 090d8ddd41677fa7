ghost use Rattle.std.specs.Prelude.{◌≡◌, ℕ, ◌≤◌, ◌<◌, [], length, is_ok, not, IsOk, IfOk, IfErr, OnOk, IsErrOf, IsTrue, ◌↔◌, Some};
ghost use Rattle.std.specs.Io.{WritesAtMost};
ghost use Rattle.std.specs.Io.KnownBytes.{WriteAppends, Keeps};
ghost use Rattle.locus_io.specs.Causes.{one_more, Rose};
ghost use Rattle.locus_io.specs.Memory.{is_listed};

use crate::memory_source::lists;
use crate::{Sink, WriteFault};
use locus_ids::Bytes;
use std::alloc::Global;
use std::marker::Model;

/// Keeps what it takes in memory. Of its calls, `give` and `flush` counted together, the listed ones fail.
#[derive(Drop)]
pub struct MemSink {
    bytes: Bytes,
    fails: Bytes,
    calls: u64,
    faults: u64,
}

impl Model for MemSink {
    ghost use Rattle.locus_io.specs.Memory.{Basin};

    ghost Value = { Basin };

    ghost view = { λ s. record { taken = s.bytes; fails = s.fails; calls = s.calls; faults = s.faults } };
}

impl MemSink {
    /// A sink that has taken nothing yet. `fails` lists the numbers of the calls that fail, from 1.
    pub fn new(alloc: Global, fails: Bytes) -> MemSink
        ensures { result ≡ record { taken = []; fails = fails; calls = 0; faults = 0 } }
    {
        MemSink {
            bytes: Bytes::new(alloc),
            fails,
            calls: 0,
            faults: 0,
        }
    }

    /// All bytes taken so far.
    pub fn bytes(&self) -> &[u8]
        ensures { result.now ≡ self.now.taken }
    {
        self.bytes.as_slice()
    }
}

impl Sink for MemSink {
    ghost taken = { λ s. Some s.taken };

    ghost flushed = { λ s. Some s.taken };

    ghost faults = { λ s. s.faults };

    fn give(&mut self, bytes: &[u8]) -> Result<usize, WriteFault>
        ensures bound { WritesAtMost result bytes.now }
        ensures bytes { WriteAppends (Some self.old.taken) (Some self.new.taken) result bytes.now }
        ensures later { self.old.faults ≤ self.new.faults }
        ensures failed { result ≡ Err WriteFault.Failed → Rose self.old.faults self.new.faults }
        ensures stuck { result ≡ Ok 0 → 0 < length bytes.now → Rose self.old.faults self.new.faults }
        ensures steady { IfOk result (λ n. 0 < n → self.new.faults ≡ self.old.faults) }
        ensures spared { result ≡ Err WriteFault.NoMemory → self.new.faults ≡ self.old.faults }
        ensures counted { self.new.calls ≡ one_more self.old.calls }
        ensures fails { IsErrOf result WriteFault.Failed ↔ IsTrue (is_listed self.old.fails self.new.calls) }
        ensures same { self.new.fails ≡ self.old.fails }
        ensures whole { IfOk result (λ n. n ≡ length bytes.now) }
    {
        self.calls = self.calls.saturating_add(1);
        if lists(&self.fails, self.calls) {
            self.faults = self.faults.saturating_add(1);
            return Err(WriteFault::Failed);
        }
        self.bytes.append(bytes)?;
        Ok(bytes.len())
    }

    fn flush(&mut self) -> Result<(), WriteFault>
        ensures bytes { Keeps (Some self.old.taken) (Some self.new.taken) }
        ensures later { self.old.faults ≤ self.new.faults }
        ensures failed { result ≡ Err WriteFault.Failed → Rose self.old.faults self.new.faults }
        ensures steady { OnOk result (self.new.faults ≡ self.old.faults) }
        ensures spared { result ≡ Err WriteFault.NoMemory → self.new.faults ≡ self.old.faults }
        ensures counted { self.new.calls ≡ one_more self.old.calls }
        ensures fails { is_ok result ≡ not (is_listed self.old.fails self.new.calls) }
        ensures only { IfErr result (λ fault. fault ≡ WriteFault.Failed) }
        ensures same { self.new.fails ≡ self.old.fails }
    {
        self.calls = self.calls.saturating_add(1);
        if lists(&self.fails, self.calls) {
            self.faults = self.faults.saturating_add(1);
            return Err(WriteFault::Failed);
        }
        Ok(())
    }
}

/// Keeps what it takes in memory. No call fails but for want of memory.
#[derive(Drop)]
pub struct SureSink {
    bytes: Bytes,
}

impl Model for SureSink {
    ghost use Rattle.std.specs.Prelude.{ℕ, List};

    ghost Value = { List ℕ };

    ghost view = { λ s. s.bytes };
}

impl SureSink {
    /// A sink that has taken nothing yet.
    pub fn new(alloc: Global) -> SureSink
        ensures { result ≡ [] }
    {
        SureSink {
            bytes: Bytes::new(alloc),
        }
    }

    /// All bytes taken so far.
    pub fn bytes(&self) -> &[u8]
        ensures { result.now ≡ self.now }
    {
        self.bytes.as_slice()
    }
}

impl Sink for SureSink {
    ghost taken = { λ taken. Some taken };

    ghost flushed = { λ taken. Some taken };

    ghost faults = { λ _. 0 };

    fn give(&mut self, bytes: &[u8]) -> Result<usize, WriteFault>
        ensures bound { WritesAtMost result bytes.now }
        ensures bytes { WriteAppends (Some self.old) (Some self.new) result bytes.now }
        ensures sure { IfErr result (λ fault. fault ≡ WriteFault.NoMemory) }
        ensures whole { IfOk result (λ n. n ≡ length bytes.now) }
    {
        self.bytes.append(bytes)?;
        Ok(bytes.len())
    }

    fn flush(&mut self) -> Result<(), WriteFault>
        ensures bytes { Keeps (Some self.old) (Some self.new) }
        ensures sure { IsOk result }
    {
        Ok(())
    }
}
