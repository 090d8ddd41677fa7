// Lines of recorded traces are read and printed back; lines with one thing wrong are bad.
use crate::checks::holds;
use locus_ids::Bytes;
use record_reading::{RecordFault, parse_record};
use std::alloc::Global;
use std::process::Abort;
use trace_book::Record;
use trace_text::render;

/// The text of the record, on this line and without the line feed, is the line.
fn is_text<R: Abort>(rt: &R, alloc: Global, number: u32, what: &Record, line: &[u8]) -> bool {
    let mut out = Bytes::new(alloc);
    render(what, number, &mut out).expect(rt, "no memory");
    let mut wanted = Bytes::from_slice(alloc, line).expect(rt, "no memory");
    wanted.push(b'\n').expect(rt, "no memory");
    out.as_slice() == wanted.as_slice()
}

/// The line is that of a record, which is printed as this very line.
fn is_printed_back<R: Abort>(rt: &R, alloc: Global, line: &[u8]) -> bool {
    let (number, what) = parse_record(alloc, line).expect(rt, "no record");
    let same = is_text(rt, alloc, number, &what, line);
    drop(what);
    same
}

/// No record has this line.
fn is_bad(alloc: Global, line: &[u8]) -> bool {
    parse_record(alloc, line).err() == Some(RecordFault::Bad)
}

#[test]
fn records_of_sites_are_read(rt: HostRuntime) {
    for line in [
        b"4294967295 up 2 2".as_slice(),
        b"4 stopped 2 asked",
        b"13 leave 1 e1.1.1",
        b"4 join 1 e1.1.1 1:1,2:1,16:4294967295",
        b"40 start e2.2.1 0 1=0.0 65=2.1 65=2.2",
        b"40 start e2.2.1 0",
        b"53 packet 4000000000 1 16 closedone",
        b"16 void",
        b"12 budget",
    ] {
        holds(&rt, is_printed_back(&rt, rt.alloc(), line));
    }
}

#[test]
fn records_of_calls_are_read(rt: HostRuntime) {
    for line in [
        b"8 call 1 8 c1.1.2 create /b 1,16".as_slice(),
        b"8 call 1 8 c1.1.2 open /b x 16",
        b"8 call 1 8 c1.1.2 mail /b 00ff",
        b"8 call 1 8 c1.1.2 mails /",
        b"21 call 1 0 c1.1.4 mend 0.2",
        b"21 look e3.1.1 c1.1.4 2 0.2 whole 1.3",
        b"21 look e3.1.1 c1.1.4 2 0.2 name a@1024 absent a@1024",
        b"9 grant e1.1.1 c1.1.2 65535 i1.2 n 0.2 - 1",
        b"31 refuse e1.1.1 c1.1.11 2 i1.13 n 0.0 busy 1 0",
        b"6 act e1.1.1 i1.1 2 insert a 2 f ok",
        b"6 act e1.1.1 i1.1 2 write 65536 00ff nospace 65 0",
        b"6 act e1.1.1 i1.1 2 find a@2 ok 2 d",
        b"6 act e1.1.1 i1.1 2 read 0 4096 ok -",
        b"9 commit 0.2 1 3.2 1.2,3.1 -",
        b"9 release e1.1.1 i1.2 0.2 -",
        b"13 adopt 3.1024 1 0.0",
        b"9 reply 1 1 c1.1.2 ok f 0.65 0 2.1",
        b"9 reply 1 1 c1.1.2 ok usr a@2 a@129",
        b"9 reply 1 1 c1.1.2 changed e1.1.1",
    ] {
        holds(&rt, is_printed_back(&rt, rt.alloc(), line));
    }
}

#[test]
fn lines_of_no_record_are_bad(rt: HostRuntime) {
    for line in [
        b"".as_slice(),
        b"7",
        b"void",
        b"7 ",
        b"7 void ",
        b"7  void",
        b"07 void",
        b"0 void",
        b"4294967296 void",
        b"7 foo",
        b"7 up 0 1",
        b"7 up 17 1",
        b"7 leave 1 e1.1",
        b"7 join 1 e1.1.1 2:1,1:1",
        b"7 join 1 e1.1.1 ",
        b"7 start e1.1.1 0 2=1.1 1=1.1",
        b"7 start e1.1.1 0 1=1.0",
        b"7 adopt 4.2 1 1.1",
        b"7 commit 0.2 1 1.1 - AB",
    ] {
        holds(&rt, is_bad(rt.alloc(), line));
    }
}

#[test]
fn calls_of_no_record_are_bad(rt: HostRuntime) {
    for line in [
        b"7 call 1 9 c1.1.1 list /".as_slice(),
        b"7 call 1 0 c1.1.1 list /",
        b"7 call 1 1 c1.1.1 mend 0.1",
        b"7 call 1 1 c1.1.1 mail /b -",
        b"7 call 1 1 c1.1.1 mail /b 0",
        b"7 call 1 1 c1.1.1 mail /b",
        b"7 call 1 1 c1.1.1 mails /b 00",
        b"7 grant e1.1.1 c1.1.1 1 i1.1 n 0.0 - 1",
        b"7 refuse e1.1.1 c1.1.1 1 i1.1 r 0.0 spent",
        b"7 refuse e1.1.1 c1.1.1 1 i1.1 n 0.2 spent",
        b"7 act e1.1.1 i1.1 1 find a ok",
        b"7 act e1.1.1 i1.1 1 probe a ok 2",
        b"7 act e1.1.1 i1.1 1 probe a@2 ok",
        b"7 look e1.1.1 c1.1.1 1 0.1 list",
        b"7 reply 1 1 c1.1.1",
        b"7 reply 1 1 c1.1.1 absent",
        b"7 reply 1 1 c1.1.1 ok a/b",
    ] {
        holds(&rt, is_bad(rt.alloc(), line));
    }
}
