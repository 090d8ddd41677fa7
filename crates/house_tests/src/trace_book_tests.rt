// The text of each form of record is in proofs/RecordTexts.antt and proofs/AnswerTexts.antt. Here the forms are printed that no recorded
// run has.
use crate::checks::holds;
use locus_ids::{Bytes, CallId, Refusal};
use std::alloc::Global;
use std::process::Abort;
use trace_book::{PacketKind, Record, Reply};
use trace_text::{Book, render};

/// The line of a record, on line 80 and after what was printed before, is the text with these words before it.
fn is_shown<R: Abort>(rt: &R, alloc: Global, what: Record, front: &[u8], text: &[u8]) -> bool {
    let mut out = Bytes::from_slice(alloc, b"x").expect(rt, "no memory");
    render(&what, 80, &mut out).expect(rt, "no memory");
    drop(what);
    let mut wanted = Bytes::from_slice(alloc, front).expect(rt, "no memory");
    wanted.append(text).expect(rt, "no memory");
    wanted.push(b'\n').expect(rt, "no memory");
    out.as_slice() == wanted.as_slice()
}

#[test]
fn packets_that_are_not_lost_are_printed(rt: HostRuntime) {
    for (kind, text) in [
        (PacketKind::Promise, b"promise".as_slice()),
        (PacketKind::Install, b"install"),
        (PacketKind::Op, b"op"),
        (PacketKind::OpDone, b"opdone"),
        (PacketKind::Closed, b"closed"),
        (PacketKind::CloseDone, b"closedone"),
        (PacketKind::Pull, b"pull"),
        (PacketKind::Page, b"page"),
        (PacketKind::Have, b"have"),
        (PacketKind::Want, b"want"),
        (PacketKind::Delta, b"delta"),
    ] {
        let packet = Record::Packet {
            number: 4_000_000_000,
            from: 16,
            to: 1,
            kind,
        };
        holds(
            &rt,
            is_shown(
                &rt,
                rt.alloc(),
                packet,
                b"x80 packet 4000000000 16 1 ",
                text,
            ),
        );
    }
}

/// A reply that refuses so is the text.
fn is_refusal<R: Abort>(rt: &R, alloc: Global, why: Refusal, text: &[u8]) -> bool {
    let answer = Record::Answer {
        site: 4,
        process: 7,
        call: CallId {
            site: 4,
            boot: 1,
            n: 12,
        },
        reply: Reply::No { why },
    };
    is_shown(rt, alloc, answer, b"x80 reply 4 7 c4.1.12 ", text)
}

#[test]
fn rare_refusals_are_printed(rt: HostRuntime) {
    let alloc = rt.alloc();
    let no_space = Refusal::NoSpace {
        needed: 65,
        free: 0,
    };
    holds(&rt, is_refusal(&rt, alloc, no_space, b"nospace 65 0"));
    holds(&rt, is_refusal(&rt, alloc, Refusal::NoInode, b"noinode"));
    let none = Refusal::NoDescriptor;
    holds(&rt, is_refusal(&rt, alloc, none, b"nodescriptor"));
    holds(&rt, is_refusal(&rt, alloc, Refusal::Spent, b"spent"));
}

#[test]
fn a_book_keeps_its_records_in_order(rt: HostRuntime) {
    let mut book = Book::new(rt.alloc());
    book.push(3, Record::Void).expect(&rt, "no memory");
    book.push(4, Record::Budget).expect(&rt, "no memory");
    holds(&rt, book.len() == 2);
    holds(&rt, matches!(book.get(1).map(|entry| entry.line), Some(4)));
    holds(&rt, book.get(2).is_none());
    book.clear();
    holds(&rt, book.as_slice().len() == 0);
}
