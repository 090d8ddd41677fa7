// Where a call fails, the test ends: so a function has no exit behind each of its calls.
use crate::checks::holds;
use dir_format::{Dir, LookResult};
use dir_operations::{
    BadDir, DirAnswer, decode_dir, empty, encode_dir, find, has_kind, insert, is_name, lookup,
    probe, remove, rename, shown_names,
};
use locus_ids::{Bytes, Ino, Kind, Refusal};
use std::alloc::Global;
use std::process::Abort;
use trace_book::Outcome;
use version_vector::Vector;

fn inode<R: Abort>(rt: &R, n: u16) -> Ino {
    Ino::new(n).expect(rt, "no inode")
}

fn decoded<R: Abort>(rt: &R, alloc: Global, bytes: &[u8]) -> Dir {
    assert!(rt; bytes.len() <= 65_536);
    decode_dir(alloc, bytes).expect(rt, "no directory")
}

/// Why the bytes are no directory, or `None` where they are one.
fn fault<R: Abort>(rt: &R, alloc: Global, bytes: &[u8]) -> Option<BadDir> {
    assert!(rt; bytes.len() <= 65_536);
    decode_dir(alloc, bytes).err()
}

fn encoded<R: Abort>(rt: &R, alloc: Global, d: &Dir) -> Bytes {
    let mut out = Bytes::new(alloc);
    encode_dir(d, &mut out).expect(rt, "no memory");
    out
}

#[test]
fn a_live_entry_is_read(rt: HostRuntime) {
    let bytes = b"\x01a\x00\x02\x01\x00\x00\x00\x01";
    let d = decoded(&rt, rt.alloc(), bytes);
    holds(&rt, d.len() == 1);
    let entry = d.get(0).expect(&rt, "no entry");
    holds(&rt, entry.name.as_slice() == b"a".as_slice());
    holds(&rt, entry.ino.get() == 2);
    holds(&rt, entry.kind == Kind::File);
    holds(&rt, entry.count == 1);
    holds(&rt, entry.seen == Vector::zero());
    holds(
        &rt,
        encoded(&rt, rt.alloc(), &d).as_slice() == bytes.as_slice(),
    );
    holds(&rt, decoded(&rt, rt.alloc(), b"").len() == 0);
}

#[test]
fn faults_have_places(rt: HostRuntime) {
    let cases: [(&[u8], u32); 24] = [
        (b"\x01a\x00\x02\x03\x00\x00\x00\x01", 4),
        (b"\x01a\x00\x02\x00\x00\x00\x00\x01", 4),
        (b"\x00a\x00\x02\x01\x00\x00\x00\x01", 0),
        (b"\x3da", 0),
        (b"\x02a", 1),
        (b"\x01/\x00\x02\x01\x00\x00\x00\x01", 0),
        (b"\x01@\x00\x02\x01\x00\x00\x00\x01", 0),
        (b"\x01.\x00\x02\x01\x00\x00\x00\x01", 0),
        (b"\x02..\x00\x02\x01\x00\x00\x00\x01", 0),
        (b"\x01 \x00\x02\x01\x00\x00\x00\x01", 0),
        (b"\x01\x7f\x00\x02\x01\x00\x00\x00\x01", 0),
        (b"\x01a", 2),
        (b"\x01a\x00", 2),
        (b"\x01a\x00\x00\x01\x00\x00\x00\x01", 2),
        (b"\x01a\x04\x01\x01\x00\x00\x00\x01", 2),
        (b"\x01a\x00\x02", 4),
        (b"\x01a\x00\x02\x01\x00\x00\x01", 5),
        (b"\x01a\x00\x02\x01\x00\x00\x00\x00", 5),
        (b"\x01a\x00\x02\x01\x00\x00\x00\x02", 9),
        (
            b"\x01a\x00\x02\x01\x00\x00\x00\x02\x00\x00\x00\x01\x00\x00",
            13,
        ),
        (
            b"\x01b\x00\x02\x01\x00\x00\x00\x01\x01a\x00\x02\x01\x00\x00\x00\x01",
            9,
        ),
        (
            b"\x01a\x00\x02\x01\x00\x00\x00\x01\x01a\x00\x02\x01\x00\x00\x00\x01",
            11,
        ),
        (
            b"\x01a\x00\x02\x01\x00\x00\x00\x01\x01b\x00\x02\x02\x00\x00\x00\x01",
            13,
        ),
        (b"\x01a\x00\x02\x01\x00\x00\x00\x01\x00", 9),
    ];
    for (bytes, at) in cases {
        assert!(rt;
            fault(&rt, rt.alloc(), bytes) == Some(BadDir::At { at }),
            "of {} bytes",
            bytes.len()
        );
    }
}

/// Makes a live file of the name, where the clauses of `insert` allow it, and says whether the directory takes it.
fn file<R: Abort>(rt: &R, d: &mut Dir, name: &[u8], ino: u16) -> bool {
    let ino = inode(rt, ino);
    assert!(rt; is_name(name));
    assert!(rt; has_kind(d, ino, Kind::File));
    let made = insert(d, name, ino, Kind::File).expect(rt, "no memory");
    let is_made = made.is_some();
    drop(made);
    is_made
}

/// What an operation gave, in short.
#[derive(Clone, Copy, PartialEq)]
enum Gave {
    Done,
    Found(u16),
    Exists(u16),
    Absent,
    NotEmpty,
    Other,
}

fn in_short(outcome: &Outcome) -> Gave {
    match outcome {
        Outcome::Done => Gave::Done,
        Outcome::Found { ino, .. } => Gave::Found(*ino),
        Outcome::No { why } => refused(why),
        _ => Gave::Other,
    }
}

fn refused(why: &Refusal) -> Gave {
    match why {
        Refusal::Exists { ino } => Gave::Exists(*ino),
        Refusal::Absent { .. } => Gave::Absent,
        Refusal::NotEmpty { .. } => Gave::NotEmpty,
        _ => Gave::Other,
    }
}

// What an operation gave is dropped by a call: the prover would write the drop of each of its fields into each of the functions below.
fn short(answer: DirAnswer) -> Gave {
    let gave = in_short(&answer.outcome);
    drop(answer);
    gave
}

fn found<R: Abort>(rt: &R, d: &Dir, component: &[u8]) -> Gave {
    short(find(d, component).expect(rt, "no memory"))
}

fn probed<R: Abort>(rt: &R, d: &Dir, name: &[u8]) -> Gave {
    assert!(rt; is_name(name));
    short(probe(d, name))
}

/// Whether a directory shows no name.
fn emptied<R: Abort>(rt: &R, d: &Dir) -> Gave {
    short(empty(d).expect(rt, "no memory"))
}

fn renamed<R: Abort>(rt: &R, d: &mut Dir, component: &[u8], name: &[u8]) -> Gave {
    assert!(rt; is_name(name));
    short(rename(d, component, name).expect(rt, "no memory"))
}

/// The version that has the first counter 1 and all others 0.
fn first_version() -> Vector<16> {
    Vector::from_parts([1, 0, 0, 0, 0, 0, 0, 0, 0, 0, 0, 0, 0, 0, 0, 0])
}

/// Whether the pair of a name and inode 2 is removed, and not by its last removal.
fn is_removed<R: Abort>(rt: &R, d: &mut Dir, name: &[u8]) -> bool {
    let answer = remove(d, name, inode(rt, 2), &first_version()).expect(rt, "no memory");
    let is_removed = match &answer {
        None => false,
        Some(answer) => answer.counts && !answer.spent,
    };
    drop(answer);
    is_removed
}

fn count_at<R: Abort>(rt: &R, d: &Dir, at: usize) -> u32 {
    d.get(at).expect(rt, "no entry").count
}

/// A directory with two files of the name n, and one of the name m.
fn three_files<R: Abort>(rt: &R, alloc: Global) -> Dir {
    let mut d = Dir::new(alloc);
    holds(rt, file(rt, &mut d, b"n", 129));
    holds(rt, file(rt, &mut d, b"n", 2));
    holds(rt, file(rt, &mut d, b"m", 7));
    holds(rt, !file(rt, &mut d, b"m", 7));
    d
}

#[test]
fn names_are_shown(rt: HostRuntime) {
    let d = three_files(&rt, rt.alloc());
    let names = shown_names(rt.alloc(), &d).expect(&rt, "no memory");
    let wanted: [&[u8]; 3] = [b"m", b"n@2", b"n@129"];
    holds(&rt, names.len() == 3);
    for (i, name) in wanted.iter().enumerate() {
        let shown = names.get(i).expect(&rt, "no name");
        holds(&rt, shown.as_slice() == *name);
    }
}

#[test]
fn names_are_looked_up(rt: HostRuntime) {
    let d = three_files(&rt, rt.alloc());
    let (two, other) = (inode(&rt, 2), inode(&rt, 129));
    let kind = Kind::File;
    holds(
        &rt,
        lookup(&d, b"n") == LookResult::Ambiguous { a: two, b: other },
    );
    holds(
        &rt,
        lookup(&d, b"n@129") == LookResult::Found { ino: other, kind },
    );
    holds(&rt, lookup(&d, b"n@0129") == LookResult::Absent);
    holds(&rt, lookup(&d, b"n@7") == LookResult::Absent);
    let bytes = encoded(&rt, rt.alloc(), &d);
    let again = decoded(&rt, rt.alloc(), bytes.as_slice());
    holds(&rt, again.len() == 3);
    holds(&rt, found(&rt, &again, b"m") == Gave::Found(7));
    holds(&rt, found(&rt, &d, b"x") == Gave::Absent);
    holds(&rt, emptied(&rt, &d) == Gave::NotEmpty);
    holds(&rt, probed(&rt, &d, b"n") == Gave::Exists(2));
    holds(&rt, probed(&rt, &d, b"x") == Gave::Done);
}

#[test]
fn a_rename_there_and_back_revives_the_pair(rt: HostRuntime) {
    let mut d = Dir::new(rt.alloc());
    holds(&rt, file(&rt, &mut d, b"a", 2));
    holds(&rt, renamed(&rt, &mut d, b"a", b"b") == Gave::Done);
    holds(&rt, d.len() == 2);
    holds(&rt, renamed(&rt, &mut d, b"b", b"b") == Gave::Exists(2));
    holds(&rt, renamed(&rt, &mut d, b"b@2", b"a") == Gave::Done);
    holds(&rt, count_at(&rt, &d, 0) == 3);
    holds(&rt, count_at(&rt, &d, 1) == 2);
}

#[test]
fn a_removal_keeps_what_it_saw(rt: HostRuntime) {
    let mut d = Dir::new(rt.alloc());
    holds(&rt, file(&rt, &mut d, b"a", 2));
    holds(&rt, emptied(&rt, &d) == Gave::NotEmpty);
    holds(&rt, is_removed(&rt, &mut d, b"a"));
    holds(&rt, emptied(&rt, &d) == Gave::Done);
    holds(&rt, !is_removed(&rt, &mut d, b"a"));
    holds(
        &rt,
        d.get(0).expect(&rt, "no entry").seen == first_version(),
    );
    let copy = d.copy().expect(&rt, "no memory");
    let (bytes, again) = (
        encoded(&rt, rt.alloc(), &d),
        encoded(&rt, rt.alloc(), &copy),
    );
    holds(&rt, again.as_slice() == bytes.as_slice());
}
