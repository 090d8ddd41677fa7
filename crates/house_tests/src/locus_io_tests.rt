ghost use Rattle.std.specs.Prelude.{None};

use crate::checks::holds;
use locus_ids::Bytes;
use locus_io::{
    MemSink, MemSource, ReadFault, Sink, Source, StdSink, StdSource, SureSink, SureSource,
    WriteFault, give_all,
};
use std::io::{self, ErrorKind, Read, Write};

#[test]
fn listed_reads_fail(rt: HostRuntime) {
    let alloc = rt.alloc();
    let bytes = Bytes::from_slice(alloc, b"abc").expect(&rt, "no memory");
    let fails = Bytes::from_slice(alloc, &[2, 4]).expect(&rt, "no memory");
    let mut source = MemSource::new(bytes, fails);
    let mut buf = [0; 2];
    holds(&rt, source.take(&mut buf) == Ok(2));
    holds(&rt, buf == [b'a', b'b']);
    holds(&rt, source.take(&mut buf) == Err(ReadFault::Failed));
    holds(&rt, source.take(&mut buf) == Ok(1));
    holds(&rt, buf == [b'c', b'b']);
    holds(&rt, source.take(&mut buf) == Err(ReadFault::Failed));
    holds(&rt, source.take(&mut buf) == Ok(0));
}

#[test]
fn a_block_is_read_at_once(rt: HostRuntime) {
    let alloc = rt.alloc();
    let mut bytes = Bytes::new(alloc);
    for n in 0..100_000u32 {
        bytes.push((n % 251) as u8).expect(&rt, "no memory");
    }
    let mut source = SureSource::new(bytes);
    let mut buf = vec![in alloc; 0; 65_536].expect(&rt, "no memory");
    holds(&rt, source.take(&mut buf) == Ok(65_536));
    holds(&rt, buf.get(65_535) == Some(&24));
    holds(&rt, source.take(&mut buf) == Ok(34_464));
    holds(&rt, source.take(&mut []) == Ok(0));
    holds(&rt, source.take(&mut buf) == Ok(0));
}

#[test]
fn listed_writes_fail(rt: HostRuntime) {
    let alloc = rt.alloc();
    let mut sink = MemSink::new(
        alloc,
        Bytes::from_slice(alloc, &[2, 3]).expect(&rt, "no memory"),
    );
    holds(&rt, sink.give(b"ab") == Ok(2));
    holds(&rt, sink.flush() == Err(WriteFault::Failed));
    holds(&rt, sink.give(b"x") == Err(WriteFault::Failed));
    holds(&rt, give_all(&mut sink, b"cd") == Ok(()));
    holds(&rt, sink.flush() == Ok(()));
    holds(&rt, sink.bytes() == b"abcd".as_slice());
    let mut sure = SureSink::new(alloc);
    holds(&rt, give_all(&mut sure, b"") == Ok(()));
    holds(&rt, give_all(&mut sure, b"xyz") == Ok(()));
    holds(&rt, sure.flush() == Ok(()));
    holds(&rt, sure.bytes() == b"xyz".as_slice());
}

/// A reader that always fails.
#[derive(Drop)]
struct Broken;

impl Read for Broken {
    fn read(&mut self, _buf: &mut [u8]) -> io::Result<usize> {
        Err(io::Error::from(ErrorKind::Other))
    }
}

#[test]
fn readers_of_std_are_sources(rt: HostRuntime) {
    let mut source = StdSource::new(b"abc".as_slice());
    let mut buf = [0; 2];
    holds(&rt, source.take(&mut buf) == Ok(2));
    holds(&rt, source.take(&mut buf) == Ok(1));
    holds(&rt, buf == [b'c', b'b']);
    holds(&rt, source.take(&mut buf) == Ok(0));
    holds(
        &rt,
        StdSource::new(Broken).take(&mut buf) == Err(ReadFault::Failed),
    );
}

#[test]
fn writers_of_std_are_sinks(rt: HostRuntime) {
    let alloc = rt.alloc();
    let mut kept = Vec::new(alloc);
    {
        let mut sink = StdSink::new(&mut kept);
        holds(&rt, give_all(&mut sink, b"abc") == Ok(()));
        holds(&rt, sink.flush() == Ok(()));
    }
    holds(&rt, kept.as_slice() == b"abc".as_slice());
    let mut narrow = [0u8; 2];
    {
        let mut sink = StdSink::new(narrow.as_mut_slice());
        holds(&rt, give_all(&mut sink, b"xyz") == Err(WriteFault::Failed));
        holds(&rt, sink.give(b"") == Ok(0));
    }
    holds(&rt, narrow == [b'x', b'y']);
}

/// A writer that holds back what it is given until it is flushed, and passes it on then, or fails.
#[derive(Drop)]
struct HeldBack {
    held: Bytes,
    out: Bytes,
    fails: bool,
}

impl Write for HeldBack {
    fn write(&mut self, buf: &[u8]) -> io::Result<usize> {
        match self.held.append(buf) {
            Ok(()) => Ok(buf.len()),
            Err(_) => Err(io::Error::from(ErrorKind::OutOfMemory)),
        }
    }

    fn flush(&mut self) -> io::Result<()> {
        if self.fails || self.out.append(self.held.as_slice()).is_err() {
            return Err(io::Error::from(ErrorKind::Other));
        }
        self.held.clear();
        Ok(())
    }
}

#[test]
fn a_flush_passes_on_what_a_writer_holds_back(rt: HostRuntime) {
    let alloc = rt.alloc();
    for (fails, answer, out) in [
        (false, Ok(()), b"abc".as_slice()),
        (true, Err(WriteFault::Failed), b""),
    ] {
        let mut writer = HeldBack {
            held: Bytes::new(alloc),
            out: Bytes::new(alloc),
            fails,
        };
        {
            let mut sink = StdSink::new(&mut writer);
            holds(&rt, give_all(&mut sink, b"abc") == Ok(()));
            holds(&rt, sink.flush() == answer);
        }
        assert!(rt; writer.out.as_slice() == out, "at {fails}");
    }
}
