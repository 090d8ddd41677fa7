ghost use Rattle.std.specs.Prelude.{◌≡◌, ℕ, ◌≤◌, ◌<◌, List, length, IfOk, OnOk, OnErr};
ghost use Rattle.std.specs.declared.option.Option.{Option};
ghost use Rattle.std.specs.Io.{ReadsAtMost, WritesAtMost};
ghost use Rattle.std.specs.Io.KnownBytes.{ReadConsumes, WriteAppends, Keeps, Appends};
ghost use Rattle.locus_io.specs.Causes.{Rose, HasCause, AppendsFront};

use locus_ids::NoMemory;
use thiserror::Error;

/// Why bytes could not be taken.
#[derive(Clone, Copy, Debug, PartialEq, Eq, Error)]
pub enum ReadFault {
    /// The source failed, and counted it.
    #[error("a read failed")]
    Failed,
}

/// Why bytes could not be given.
#[derive(Clone, Copy, Debug, PartialEq, Eq, Error)]
pub enum WriteFault {
    /// The sink failed, and counted it.
    #[error("a write failed")]
    Failed,
    /// A sink that keeps its bytes has no memory for more.
    #[error("no memory")]
    NoMemory,
}

impl From<NoMemory> for WriteFault {
    ghost use Rattle.std.specs.Prelude.{◌≡◌};
    ghost use Rattle.locus_io.specs.declared.traits.WriteFault.TheVariants.{NoMemory};

    ghost from_gives = { λ _ fault. fault ≡ NoMemory };

    fn from(_: NoMemory) -> WriteFault {
        WriteFault::NoMemory
    }
}

/// Bytes to read, from the front. A source counts its faults, up to the last value of a `u64`, so that who reads
/// through it can show that each fault came from it.
pub trait Source {
    /// The bytes left, where they are told.
    ghost left: { Self → Option (List ℕ) };

    /// How many calls have failed.
    ghost faults: { Self → ℕ };

    /// Takes some bytes from the front into the front of `buf`, and says how many. None into a buffer that has room is
    /// the end, and comes at the end alone. A failed call takes nothing.
    fn take(&mut self, buf: &mut [u8]) -> Result<usize, ReadFault>
        ensures bound { ReadsAtMost result buf.new }
        ensures bytes { ReadConsumes (left self.old) (left self.new) result buf.new }
        ensures cause { HasCause (faults self.old) (faults self.new) result };
}

/// A place to write bytes to. A sink counts its faults, as a source does.
pub trait Sink {
    /// The bytes taken, where they are told.
    ghost taken: { Self → Option (List ℕ) };

    /// The bytes taken that it has passed on and holds back no longer, where they are told.
    ghost flushed: { Self → Option (List ℕ) };

    /// How many calls have failed, or took nothing of a piece that was not empty.
    ghost faults: { Self → ℕ };

    /// Gives bytes, of which the sink takes some from the front, and says how many. A call that answers an `Err` takes
    /// nothing.
    fn give(&mut self, bytes: &[u8]) -> Result<usize, WriteFault>
        ensures bound { WritesAtMost result bytes.now }
        ensures bytes { WriteAppends (taken self.old) (taken self.new) result bytes.now }
        ensures later { faults self.old ≤ faults self.new }
        ensures failed { result ≡ Err WriteFault.Failed → Rose (faults self.old) (faults self.new) }
        ensures stuck { result ≡ Ok 0 → 0 < length bytes.now → Rose (faults self.old) (faults self.new) }
        ensures steady { IfOk result (λ n. 0 < n → faults self.new ≡ faults self.old) }
        ensures spared { result ≡ Err WriteFault.NoMemory → faults self.new ≡ faults self.old };

    /// Passes on all that the sink holds back.
    fn flush(&mut self) -> Result<(), WriteFault>
        ensures bytes { Keeps (taken self.old) (taken self.new) }
        ensures whole { OnOk result (flushed self.new ≡ taken self.new) }
        ensures later { faults self.old ≤ faults self.new }
        ensures failed { result ≡ Err WriteFault.Failed → Rose (faults self.old) (faults self.new) }
        ensures steady { OnOk result (faults self.new ≡ faults self.old) }
        ensures spared { result ≡ Err WriteFault.NoMemory → faults self.new ≡ faults self.old };
}

/// Gives all the bytes, in as many pieces as the sink makes of them. After an `Err` some front of them was taken.
pub fn give_all<K: Sink>(sink: &mut K, bytes: &[u8]) -> Result<(), WriteFault>
    ensures ok { OnOk result (Appends (K.taken sink.old) (K.taken sink.new) bytes.now) }
    ensures err { OnErr result (AppendsFront (K.taken sink.old) (K.taken sink.new) bytes.now) }
    ensures later { K.faults sink.old ≤ K.faults sink.new }
    ensures failed { result ≡ Err WriteFault.Failed → Rose (K.faults sink.old) (K.faults sink.new) }
    ensures steady { OnOk result (K.faults sink.new ≡ K.faults sink.old) }
    ensures spared { result ≡ Err WriteFault.NoMemory → K.faults sink.new ≡ K.faults sink.old }
{
    let mut at = 0usize;
    while at < bytes.len() {
        match sink.give(&bytes[at..]) {
            Ok(0) => return Err(WriteFault::Failed),
            Ok(n) => at += n,
            Err(fault) => return Err(fault),
        }
    }
    Ok(())
}
