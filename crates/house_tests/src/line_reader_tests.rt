use crate::checks::holds;
use line_reader::{LineReader, Next};
use locus_ids::Bytes;
use locus_io::{MemSource, ReadFault, Source, SureSource};
use std::alloc::Global;
use std::process::Abort;

fn new_reader<R: Abort>(rt: &R, alloc: Global, limit: u32) -> LineReader {
    LineReader::new(alloc, limit).expect(rt, "no memory")
}

/// The lines a and b, where these calls fail.
fn two_lines<R: Abort>(rt: &R, alloc: Global, fails: &[u8]) -> MemSource {
    let text = Bytes::from_slice(alloc, b"a\nb").expect(rt, "no memory");
    let fails = Bytes::from_slice(alloc, fails).expect(rt, "no memory");
    MemSource::new(text, fails)
}

/// The reader gives this next.
fn gives<S: Source, R: Abort>(rt: &R, reader: &mut LineReader, source: &mut S, wanted: Next) {
    holds(rt, reader.next(source) == Ok(wanted));
}

/// The next call of the reader fails.
fn fails<S: Source, R: Abort>(rt: &R, reader: &mut LineReader, source: &mut S) {
    holds(rt, reader.next(source) == Err(ReadFault::Failed));
}

#[test]
fn lines_end_with_a_line_feed(rt: HostRuntime) {
    let alloc = rt.alloc();
    let text = Bytes::from_slice(alloc, b"ab\n\n#c d\nabcdef\nx").expect(&rt, "no memory");
    let mut source = SureSource::new(text);
    let mut reader = new_reader(&rt, alloc, 6);
    let lines = [b"ab".as_slice(), b"", b"#c d", b"abcdef", b"x"];
    for (i, line) in lines.iter().enumerate() {
        gives(&rt, &mut reader, &mut source, Next::Line);
        holds(&rt, reader.bytes() == *line);
        holds(&rt, reader.number() as usize == i + 1);
    }
    gives(&rt, &mut reader, &mut source, Next::End);
    gives(&rt, &mut reader, &mut source, Next::End);
    holds(&rt, reader.bytes() == b"".as_slice());
    holds(&rt, reader.number() == 5);
}

#[test]
fn a_line_past_the_limit_stays(rt: HostRuntime) {
    let alloc = rt.alloc();
    for text in [b"a\nabcd\nb\n".as_slice(), b"a\nabcd", b"a\nabcdefgh\n"] {
        let mut source = SureSource::new(Bytes::from_slice(alloc, text).expect(&rt, "no memory"));
        let mut reader = new_reader(&rt, alloc, 3);
        gives(&rt, &mut reader, &mut source, Next::Line);
        gives(&rt, &mut reader, &mut source, Next::LongLine);
        gives(&rt, &mut reader, &mut source, Next::LongLine);
        holds(&rt, reader.number() == 1);
    }
}

#[test]
fn nothing_is_lost_by_a_fault(rt: HostRuntime) {
    let alloc = rt.alloc();
    let mut source = two_lines(&rt, alloc, &[1, 3]);
    let mut reader = new_reader(&rt, alloc, 3);
    fails(&rt, &mut reader, &mut source);
    gives(&rt, &mut reader, &mut source, Next::Line);
    holds(&rt, reader.bytes() == b"a".as_slice());
    fails(&rt, &mut reader, &mut source);
    gives(&rt, &mut reader, &mut source, Next::Line);
    holds(&rt, reader.bytes() == b"b".as_slice());
    gives(&rt, &mut reader, &mut source, Next::End);
}

#[test]
fn a_source_is_asked_no_more_past_its_end(rt: HostRuntime) {
    let alloc = rt.alloc();
    let mut source = two_lines(&rt, alloc, &[3]);
    let mut reader = new_reader(&rt, alloc, 3);
    gives(&rt, &mut reader, &mut source, Next::Line);
    gives(&rt, &mut reader, &mut source, Next::Line);
    holds(&rt, reader.bytes() == b"b".as_slice());
    gives(&rt, &mut reader, &mut source, Next::End);
    gives(&rt, &mut reader, &mut source, Next::End);
    holds(&rt, reader.number() == 2);
}

#[test]
fn a_last_line_is_not_read_at_a_fault(rt: HostRuntime) {
    let alloc = rt.alloc();
    let mut source = two_lines(&rt, alloc, &[2]);
    let mut reader = new_reader(&rt, alloc, 3);
    gives(&rt, &mut reader, &mut source, Next::Line);
    fails(&rt, &mut reader, &mut source);
    holds(&rt, reader.number() == 1);
}

#[test]
fn a_million_lines_may_be_read(rt: HostRuntime) {
    let alloc = rt.alloc();
    let mut text = Bytes::new(alloc);
    for _ in 0..1_000_000u32 {
        text.append(b"# a comment of some length\n")
            .expect(&rt, "no memory");
    }
    text.push(b'x').expect(&rt, "no memory");
    let mut source = SureSource::new(text);
    let mut reader = new_reader(&rt, alloc, 16_384);
    for _ in 0..1_000_000u32 {
        gives(&rt, &mut reader, &mut source, Next::Line);
    }
    holds(
        &rt,
        reader.bytes() == b"# a comment of some length".as_slice(),
    );
    gives(&rt, &mut reader, &mut source, Next::TooMany);
    holds(&rt, reader.number() == 1_000_000);
}
