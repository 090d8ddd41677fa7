// Where a call fails, the test ends: so a function has no exit behind each of its calls.
use crate::checks::holds;
use dir_format::Dir;
use dir_operations::{decode_dir, encode_dir, shown_names};
use dir_reconcile::{KeptVector, KeptVectors, agree_on_kinds, join_dirs, rescue, rescue_wanted};
use locus_ids::{Bytes, Ino};
use std::alloc::Global;
use std::process::Abort;
use version_vector::Vector;

// The name n of inode 2, live with count 1, and as removed by one who saw the first version of site 1.
const LIVE: [u8; 9] = *b"\x01n\x00\x02\x01\x00\x00\x00\x01";

const GONE: [u8; 13] = *b"\x01n\x00\x02\x01\x00\x00\x00\x02\x00\x00\x00\x01";

fn decoded<R: Abort>(rt: &R, alloc: Global, bytes: &[u8]) -> Dir {
    assert!(rt; bytes.len() <= 65_536);
    decode_dir(alloc, bytes).expect(rt, "no directory")
}

fn gone<R: Abort>(rt: &R, alloc: Global) -> Bytes {
    let mut bytes = Bytes::from_slice(alloc, &GONE).expect(rt, "no memory");
    bytes.append(&[0; 60]).expect(rt, "no memory");
    bytes
}

fn kept<R: Abort>(rt: &R, alloc: Global, first: u32) -> KeptVectors {
    let mut list = KeptVectors::new(alloc);
    list.push(KeptVector {
        ino: Ino::new(2).expect(rt, "no inode"),
        vector: Vector::from_parts([first, 0, 0, 0, 0, 0, 0, 0, 0, 0, 0, 0, 0, 0, 0, 0]),
    })
    .expect(rt, "no memory");
    list
}

fn encoded<R: Abort>(rt: &R, alloc: Global, d: &Dir) -> Bytes {
    let mut out = Bytes::new(alloc);
    encode_dir(d, &mut out).expect(rt, "no memory");
    out
}

fn joined<R: Abort>(rt: &R, alloc: Global, a: &[u8], b: &[u8]) -> Dir {
    let (a, b) = (decoded(rt, alloc, a), decoded(rt, alloc, b));
    assert!(rt; agree_on_kinds(&a, &b));
    join_dirs(alloc, &a, &b).expect(rt, "no memory")
}

#[test]
fn the_greater_count_is_taken(rt: HostRuntime) {
    let alloc = rt.alloc();
    let removed = gone(&rt, alloc);
    let d = joined(&rt, alloc, &LIVE, removed.as_slice());
    holds(
        &rt,
        encoded(&rt, alloc, &d).as_slice() == removed.as_slice(),
    );
}

#[test]
fn two_files_of_one_name_stay(rt: HostRuntime) {
    let alloc = rt.alloc();
    let other = b"\x01n\x00\x81\x01\x00\x00\x00\x01";
    let d = joined(&rt, alloc, other, &LIVE);
    let wanted = b"\x01n\x00\x02\x01\x00\x00\x00\x01\x01n\x00\x81\x01\x00\x00\x00\x01";
    holds(&rt, encoded(&rt, alloc, &d).as_slice() == wanted.as_slice());
    let names = shown_names(alloc, &d).expect(&rt, "no memory");
    let (first, second) = (
        names.get(0).expect(&rt, "first"),
        names.get(1).expect(&rt, "second"),
    );
    holds(&rt, first.as_slice() == b"n@2".as_slice());
    holds(&rt, second.as_slice() == b"n@129".as_slice());
}

/// The bytes of a directory once what it lost beside these kept versions is rescued.
fn rescued<R: Abort>(rt: &R, alloc: Global, d: &Dir, kept: &KeptVectors) -> Bytes {
    let back = rescue(alloc, d, kept).expect(rt, "not rescued");
    encoded(rt, alloc, &back)
}

#[test]
fn a_version_that_no_removal_saw_is_rescued(rt: HostRuntime) {
    let alloc = rt.alloc();
    let removed = gone(&rt, alloc);
    let d = decoded(&rt, alloc, removed.as_slice());
    let (seen, newer) = (kept(&rt, alloc, 1), kept(&rt, alloc, 2));
    holds(&rt, !rescue_wanted(&d, &seen));
    holds(&rt, rescue_wanted(&d, &newer));
    holds(
        &rt,
        rescued(&rt, alloc, &d, &seen).as_slice() == removed.as_slice(),
    );
    let wanted = b"\x01n\x00\x02\x01\x00\x00\x00\x03";
    holds(
        &rt,
        rescued(&rt, alloc, &d, &newer).as_slice() == wanted.as_slice(),
    );
}
