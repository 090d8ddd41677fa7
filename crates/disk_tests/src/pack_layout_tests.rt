use crate::checks::holds;
use crate::packs::{BASE, second_inode};
use locus_ids::{Ino, Kind, Sites, Stamp};
use pack_layout::{
    BadSlot, Half, Slot, area_at, disk_len, newer, nth_inode, page_at, read_slot, slot_at,
    table_at, write_body,
};
use version_vector::Vector;

#[test]
fn areas_slots_and_pages_stand_where_the_layout_has_them(rt: HostRuntime) {
    // A label of 1,024 bytes, then areas of 1,024 + 2,048 x 1,024 + 64 x 1,024 + 3,072 x 1,024 bytes.
    holds(
        &rt,
        [disk_len(0), disk_len(1), disk_len(4)] == [1_024, 5_310_464, 21_238_784],
    );
    holds(
        &rt,
        [area_at(0), area_at(1), area_at(3)] == [1_024, 5_310_464, 15_929_344],
    );
    holds(
        &rt,
        [table_at(BASE, 0), table_at(BASE, 63)] == [2_099_200, 2_163_712],
    );
    holds(
        &rt,
        [page_at(BASE, 0), page_at(BASE, 3_071)] == [2_164_736, 5_309_440],
    );
    let last = nth_inode(1_023);
    holds(&rt, [nth_inode(0).get(), last.get()] == [1, 1_024]);
    holds(&rt, slot_at(BASE, Ino::root(), Half::First) == 2_048);
    holds(&rt, slot_at(BASE, second_inode(&rt), Half::Second) == 3_584);
    holds(&rt, slot_at(BASE, last, Half::Second) == 1_050_112);
    holds(
        &rt,
        [Half::First.other(), Half::Second.other()] == [Half::Second, Half::First],
    );
}

/// Inode 2 as the seventh commit of site 3 has it: 1,500 bytes on the data pages 5 and 9, stored at the sites 1 and 3.
fn slot() -> Slot {
    let mut counters = [0; 16];
    counters[2] = 7;
    let mut pages = [0xFFFF; 60];
    pages[0] = 5;
    pages[1] = 9;
    Slot {
        turn: 1,
        kind: Kind::File,
        ino: 2,
        set: Sites(0b101),
        size: 1_500,
        stamp: Stamp { site: 3, n: 7 },
        vector: Vector::from_parts(counters),
        pages,
        tables: [0xFFFF; 2],
    }
}

/// Its bytes, by hand.
fn slot_bytes() -> [u8; 512] {
    let mut bytes = [0; 512];
    bytes[..16].copy_from_slice(&[0xA5, 1, 1, 0, 2, 0, 0b101, 0, 0, 0x05, 0xDC, 3, 0, 0, 0, 7]);
    bytes[27] = 7;
    bytes[80..204].fill(0xFF);
    bytes[80..84].copy_from_slice(&[0, 5, 0, 9]);
    bytes
}

#[test]
fn a_slot_is_written_field_by_field(rt: HostRuntime) {
    let mut body = [0; 511];
    write_body(&slot(), &mut body);
    holds(&rt, body.as_slice() == &slot_bytes()[1..]);
}

#[test]
fn a_slot_is_read_only_where_each_field_may_stand(rt: HostRuntime) {
    holds(&rt, read_slot(&slot_bytes(), 2) == Ok(Some(slot())));
    holds(&rt, read_slot(&slot_bytes(), 3) == Err(BadSlot));
    // A turn, a kind, another inode, a set of no site, a size, a site, a stamp that the vector doesn't have, a page of no area,
    // a page named twice, a page behind the content, a table without pages, and a byte behind the tables.
    for (at, byte) in [
        (1, 3),
        (2, 0),
        (2, 3),
        (3, 1),
        (6, 0),
        (8, 2),
        (11, 17),
        (15, 8),
        (27, 6),
        (80, 12),
        (83, 5),
        (85, 0),
        (201, 0),
        (204, 1),
        (511, 1),
    ] {
        let mut bytes = slot_bytes();
        let at: usize = at;
        if at < 512 {
            bytes[at] = byte;
        }
        assert!(rt; read_slot(&bytes, 2) == Err(BadSlot), "at {at}");
    }
}

#[test]
fn a_slot_whose_gate_is_no_open_one_says_nothing(rt: HostRuntime) {
    for gate in [0, 0xA4, 0xFF] {
        let mut bytes = [0x33; 512];
        bytes[0] = gate;
        holds(&rt, read_slot(&bytes, 2) == Ok(None));
    }
}

#[test]
fn turns_go_round(rt: HostRuntime) {
    for (first, second, wanted) in [
        (0, 1, Some(true)),
        (1, 0, Some(false)),
        (1, 2, Some(true)),
        (2, 0, Some(true)),
        (0, 2, Some(false)),
        (2, 2, None),
    ] {
        let mut one = slot();
        one.turn = first;
        let mut other = slot();
        other.turn = second;
        holds(&rt, newer(&one, &other) == wanted);
    }
}
