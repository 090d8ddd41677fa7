// Where a call fails, the test ends: so a function has no exit behind each of its calls.
ghost use Rattle.wire_messages.specs.Packets.{FitsPacket};

use crate::checks::holds;
use locus_ids::{Bytes, EpochId};
use std::alloc::Global;
use std::process::Abort;
use wire_messages::{Body, Packet};
use wire_reading::{NotAPacket, decode};
use wire_writing::encode;

// The packet with no body in epoch (1, 1, 1), from boot 1 of site 1 to boot 1 of site 2.
const POLL: [u8; 25] = [
    1, 1, 1, 0, 0, 0, 1, 2, 0, 0, 0, 1, 0, 0, 0, 1, 1, 0, 0, 0, 1, 0, 0, 0, 0,
];

/// The packet that these bytes are.
fn decoded<R: Abort>(rt: &R, alloc: Global, bytes: &[u8]) -> Packet
    ensures { FitsPacket result }
{
    assert!(rt; bytes.len() <= 65_536);
    decode(alloc, bytes).expect(rt, "no packet")
}

/// Where these bytes are refused, or `None` where they are a packet.
fn fault<R: Abort>(rt: &R, alloc: Global, bytes: &[u8]) -> Option<u32> {
    assert!(rt; bytes.len() <= 65_536);
    match decode(alloc, bytes).err() {
        None => None,
        Some(NotAPacket::At { at }) => Some(at),
        Some(NotAPacket::NoMemory) => panic!(rt; "no memory"),
    }
}

/// Whether the bytes are a packet's that has the same bytes again.
fn has_them_again<R: Abort>(rt: &R, alloc: Global, bytes: &[u8]) -> bool {
    let packet = decoded(rt, alloc, bytes);
    let mut out = Bytes::new(alloc);
    encode(&packet, &mut out).expect(rt, "no memory");
    drop(packet);
    out.as_slice() == bytes
}

/// A body of these bytes and, where more are given, of a vector whose first counter is 3 and whose others are 0, and of these.
fn body<R: Abort>(rt: &R, alloc: Global, before: &[u8], after: Option<&[u8]>) -> Bytes {
    let mut bytes = Bytes::from_slice(alloc, before).expect(rt, "no memory");
    if let Some(after) = after {
        bytes.append(&[0, 0, 0, 3]).expect(rt, "no memory");
        bytes.append(&[0; 60]).expect(rt, "no memory");
        bytes.append(after).expect(rt, "no memory");
    }
    bytes
}

/// A packet of a kind in epoch (1, 1, 1), from boot 1 of site 1 to boot 1 of site 2.
fn packet<R: Abort>(rt: &R, alloc: Global, kind: u8, body: &[u8]) -> Bytes {
    let length = u8::try_from(body.len()).ok().expect(rt, "a long body");
    let header = [1, kind, 1, 0, 0, 0, 1, 2, 0, 0, 0, 1];
    let mut bytes = Bytes::from_slice(alloc, &header).expect(rt, "no memory");
    bytes
        .append(&[0, 0, 0, 1, 1, 0, 0, 0, 1, 0, 0, 0, length])
        .expect(rt, "no memory");
    bytes.append(body).expect(rt, "no memory");
    bytes
}

/// Where the first so many bytes of a packet are refused: at the field of the header that they cut, or at the length.
fn cut_at(n: usize) -> u32 {
    let fields: [(u32, usize); 9] = [
        (0, 1),
        (1, 2),
        (2, 3),
        (3, 7),
        (7, 8),
        (8, 12),
        (12, 16),
        (16, 17),
        (17, 21),
    ];
    for (start, end) in fields {
        if n < end {
            return start;
        }
    }
    21
}

/// What stands before a place.
fn start<'a, R: Abort>(rt: &R, bytes: &'a [u8], n: usize) -> &'a [u8] {
    assert!(rt; n < bytes.len());
    &bytes[..n]
}

/// What a byte is replaced by: 0xFF, and each byte that differs from it in one bit.
fn others(byte: u8) -> [u8; 9] {
    [
        0xFF,
        byte ^ 1,
        byte ^ 2,
        byte ^ 4,
        byte ^ 8,
        byte ^ 0x10,
        byte ^ 0x20,
        byte ^ 0x40,
        byte ^ 0x80,
    ]
}

/// The bytes with another one at a place.
fn changed<R: Abort>(rt: &R, alloc: Global, bytes: &[u8], n: usize, byte: u8) -> Bytes {
    assert!(rt; n < bytes.len());
    let mut changed = Bytes::from_slice(alloc, &bytes[..n]).expect(rt, "no memory");
    changed.push(byte).expect(rt, "no memory");
    changed.append(&bytes[n + 1..]).expect(rt, "no memory");
    changed
}

/// Whether these bytes are no packet, or one that has the same bytes again.
fn is_none_or_has_them_again<R: Abort>(rt: &R, alloc: Global, bytes: &[u8]) -> bool {
    fault(rt, alloc, bytes).is_some() || has_them_again(rt, alloc, bytes)
}

/// Whether what stands before a place is refused where it ends, and whether each other byte at that place gives no packet, or one that
/// has the same bytes again.
fn holds_at<R: Abort>(rt: &R, alloc: Global, bytes: &[u8], n: usize) -> bool {
    assert!(rt; n < bytes.len());
    for byte in others(bytes[n]) {
        let changed = changed(rt, alloc, bytes, n, byte);
        if !is_none_or_has_them_again(rt, alloc, changed.as_slice()) {
            return false;
        }
    }
    fault(rt, alloc, start(rt, bytes, n)) == Some(cut_at(n))
}

/// The bytes are those of a packet, which has the same again, and no others are near them.
fn are_a_packet<R: Abort>(rt: &R, alloc: Global, bytes: &[u8], kind: u8) {
    assert!(rt; has_them_again(rt, alloc, bytes), "kind {kind}");
    for n in 0..bytes.len() {
        assert!(rt; holds_at(rt, alloc, bytes, n), "kind {kind} at {n}");
    }
}

#[test]
fn each_kind_is_its_bytes(rt: HostRuntime) {
    let alloc = rt.alloc();
    // The kind, its body before a vector and, where it has one, what follows the vector.
    let kinds: [(u8, &[u8], Option<&[u8]>); 28] = [
        (1, &[], None),
        (2, &[0, 0], None),
        (3, &[0, 0, 0, 2, 3, 0, 0, 0, 4], None),
        (4, &[2, 1, 0, 0, 0, 1, 16, 0, 0, 0, 9], None),
        (5, &[], None),
        (
            6,
            &[3, 0, 1, 0, 2, 1, 0, 7, 0, 0, 0, 9, 1, 0, 0, 0, 3],
            Some(&[]),
        ),
        (7, &[3], None),
        (
            8,
            &[0, 0, 0, 1, 0, 0, 0, 5, 8, 0, 2, 0, 0, 0, 5, 0, 0, 7, 2],
            None,
        ),
        (
            9,
            &[1, 0, 0, 0, 1, 0, 0, 2, 2, 0, 7, 1, 0, 0, 0, 0, 0],
            Some(&[2, 1, 0, 0, 0, 3, 2, 0, 0, 0, 1]),
        ),
        (10, &[1, 0, 0, 0, 1, 1, 0, 2, 0, 1, 0, 0], None),
        (
            11,
            &[0, 0, 0, 1, 1, 2, 0, 2, 0, 0, 0, 9, 1, 0, 0, 0, 3],
            Some(&[]),
        ),
        (12, &[0, 0, 0, 1, 0, 0, 0, 1, 4, 1, 0x61, 0, 2], Some(&[])),
        (13, &[0, 0, 0, 1, 0, 0, 0, 1, 1, 1, 0, 2, 0x61, 0x62], None),
        // A read of bytes that the asker has, and its answer.
        (12, &[0, 0, 0, 1, 0, 0, 0, 2, 13, 0, 0, 0, 9, 0, 2], None),
        (13, &[0, 0, 0, 1, 0, 0, 0, 2, 1, 4, 0, 2], None),
        (14, &[0, 0, 0, 1], None),
        (15, &[1, 0, 0, 0, 1, 1, 1, 0, 0, 0, 3], Some(&[0, 0, 0, 9])),
        (16, &[1, 0, 0, 0, 1], None),
        (17, &[0, 0, 0, 1, 2, 7, 1, 0, 0, 0, 3, 2, 0, 0, 0, 1], None),
        (
            18,
            &[
                0, 0, 0, 5, 1, 0, 1, 0, 0, 0, 1, 0, 0, 1, 1, 3, 0x61, 0x40, 0x39,
            ],
            None,
        ),
        (
            19,
            &[
                3, 0, 0, 0, 5, 1, 0, 1, 0, 0, 0, 1, 0, 0, 1, 4, 1, 0, 0, 0, 3, 0, 0, 0, 0, 0,
            ],
            None,
        ),
        (
            20,
            &[0, 0, 0, 5, 0, 1, 0, 0, 0, 1, 2, 0, 0, 0, 2, 0xFF, 0],
            None,
        ),
        (
            21,
            &[0, 0, 2, 1, 0, 7, 0, 0, 0, 9, 1, 0, 0, 0, 3],
            Some(&[1]),
        ),
        (22, &[0, 0, 2, 1, 0, 0, 0, 3, 63], None),
        (23, &[0, 0, 2, 1, 0, 0, 0, 3, 63, 0, 2, 0x61, 0xFF], None),
        (24, &[0, 0, 2, 1, 0, 0, 0, 3], None),
        (25, &[0, 0, 2, 1, 0, 0, 0, 3, 2, 0, 0, 0, 1], None),
        (26, &[0, 0, 2, 1, 0, 0, 0, 3, 0, 2, 0, 1, 0, 3], None),
    ];
    for (kind, before, after) in kinds {
        let body = body(&rt, alloc, before, after);
        let bytes = packet(&rt, alloc, kind, body.as_slice());
        are_a_packet(&rt, alloc, bytes.as_slice(), kind);
    }
}

/// Whether a packet is sent by boot 1 of site 1 to boot 1 of site 2 in epoch (1, 1, 1), with no body.
fn is_worked_poll(p: &Packet) -> bool {
    are_worked_sites(p) && is_worked_epoch(p.epoch) && matches!(p.body, Body::Poll)
}

fn are_worked_sites(p: &Packet) -> bool {
    p.from.get() == 1 && p.from_boot == 1 && p.to.get() == 2 && p.to_boot == 1
}

fn is_worked_epoch(epoch: EpochId) -> bool {
    epoch.number == 1 && epoch.site == 1 && epoch.boot == 1
}

fn reads_worked_poll<R: Abort>(rt: &R, alloc: Global) -> bool {
    let poll = decoded(rt, alloc, &POLL);
    let is_worked = is_worked_poll(&poll);
    drop(poll);
    is_worked
}

#[test]
fn the_worked_poll(rt: HostRuntime) {
    let alloc = rt.alloc();
    holds(&rt, reads_worked_poll(&rt, alloc));
    holds(&rt, has_them_again(&rt, alloc, &POLL));
    holds(&rt, fault(&rt, alloc, start(&rt, &POLL, 24)) == Some(21));
    let mut longer = Bytes::from_slice(alloc, &POLL).expect(&rt, "no memory");
    longer.push(7).expect(&rt, "no memory");
    holds(&rt, fault(&rt, alloc, longer.as_slice()) == Some(25));
}

#[test]
fn a_report_that_descends(rt: HostRuntime) {
    let alloc = rt.alloc();
    let second: [u8; 14] = [0, 2, 1, 0, 7, 0, 0, 0, 9, 1, 0, 0, 0, 3];
    let second = body(&rt, alloc, &second, Some(&[]));
    let first: [u8; 17] = [0, 0, 2, 0, 3, 1, 0, 7, 0, 0, 0, 9, 1, 0, 0, 0, 3];
    let both = body(&rt, alloc, &first, Some(second.as_slice()));
    let bytes = packet(&rt, alloc, 6, both.as_slice());
    holds(&rt, fault(&rt, alloc, bytes.as_slice()) == Some(106));
}

#[test]
fn a_delta_that_names_a_page_twice(rt: HostRuntime) {
    let alloc = rt.alloc();
    let body: [u8; 14] = [0, 0, 2, 1, 0, 0, 0, 3, 0, 2, 0, 3, 0, 3];
    let bytes = packet(&rt, alloc, 26, &body);
    holds(&rt, fault(&rt, alloc, bytes.as_slice()) == Some(37));
}
