ghost use Rattle.std.specs.Prelude.{◌≡◌, ◌≤◌, OnOk, OnErr};
ghost use Rattle.std.specs.Io.KnownBytes.{Appends};
ghost use Rattle.locus_io.specs.Causes.{Rose, AppendsFront};

use locus_io::{Sink, WriteFault, give_all};

/// Gives the bytes and flushes.
pub fn send<K: Sink>(sink: &mut K, bytes: &[u8]) -> Result<(), WriteFault>
    ensures ok { OnOk result (Appends (K.taken sink.old) (K.taken sink.new) bytes.now) }
    ensures flushed { OnOk result (K.flushed sink.new ≡ K.taken sink.new) }
    ensures err { OnErr result (AppendsFront (K.taken sink.old) (K.taken sink.new) bytes.now) }
    ensures later { K.faults sink.old ≤ K.faults sink.new }
    ensures failed { result ≡ Err WriteFault.Failed → Rose (K.faults sink.old) (K.faults sink.new) }
{
    give_all(sink, bytes)?;
    sink.flush()
}
