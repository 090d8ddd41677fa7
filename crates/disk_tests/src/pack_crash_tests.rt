use crate::checks::holds;
use crate::packs::{
    BASE, adopt, byte_at, bytes_after, commit_first_page, crashed, first_site, new_disk,
    new_record, page_and_half, page_place, second_inode, settle,
};
use disk_model::{Disk, Leave, RecordDisk, ScriptDisk};
use inode_pack::Pack;
use locus_ids::Sites;
use pack_layout::{Half, Slot, slot_at};
use pack_slots::{MountFault, format};
use std::alloc::Global;
use std::process::Abort;

/// How the second version of inode 2 comes.
#[derive(Clone, Copy)]
enum Second {
    Adopted,
    Committed,
}

/// A new pack with two versions of inode 2, and how many calls there were before each and at the end. The first one is adopted.
fn two_versions<R: Abort>(
    rt: &R,
    alloc: Global,
    disk: &mut RecordDisk,
    second: Second,
) -> [usize; 3] {
    let site = first_site(rt);
    let ino = second_inode(rt);
    holds(rt, disk.len() >= 5_310_464);
    holds(rt, Sites(1).has(site));
    format(disk, BASE, 0, site, Sites(1)).expect(rt, "a fault");
    let mut pack = Pack::mount(alloc, disk, BASE, 0, site).expect(rt, "no pack");
    let first = disk.calls();
    adopt(rt, &mut pack, disk, ino, &page_and_half(rt, alloc, 7));
    let middle = disk.calls();
    let new = page_and_half(rt, alloc, 9);
    match second {
        Second::Adopted => adopt(rt, &mut pack, disk, ino, &new),
        Second::Committed => commit_first_page(rt, &mut pack, disk, new.as_slice()),
    }
    [first, middle, disk.calls()]
}

/// A byte of a data page.
fn page_byte<R: Abort>(rt: &R, disk: &mut ScriptDisk, page: u16, at: u32) -> u8 {
    byte_at(rt, disk, page_place(rt, page, at))
}

/// Whether inode 2 has the first content, the second one, or the first page of the second one before the rest of the first; 0 for
/// none. It is whole: so say the first and the last byte of its first page, and the last byte of a page and a half.
fn version_of<R: Abort>(rt: &R, disk: &mut ScriptDisk, slot: Option<&Slot>) -> u32 {
    let Some(slot) = slot else {
        return 0;
    };
    let found = [
        page_byte(rt, disk, slot.pages[0], 0),
        page_byte(rt, disk, slot.pages[0], 1_023),
        page_byte(rt, disk, slot.pages[1], 511),
    ];
    match found {
        [7, 7, 7] => 1,
        [9, 9, 9] => 2,
        [9, 9, 7] => 3,
        _ => panic!(rt; "neither version"),
    }
}

/// What a crash at this moment leaves inode 2.
fn version_after<R: Abort>(
    rt: &R,
    alloc: Global,
    record: &RecordDisk,
    calls: usize,
    leave: Leave,
) -> u32 {
    let mut disk = crashed(rt, alloc, record, calls, leave);
    settle(rt, &mut disk);
    let pack = Pack::mount(alloc, &mut disk, BASE, 0, first_site(rt)).expect(rt, "no pack");
    version_of(rt, &mut disk, pack.copy(2))
}

/// The versions that crashes at these moments leave: for each moment with torn bytes old, new, or another byte.
fn versions<R: Abort>(
    rt: &R,
    alloc: Global,
    record: &RecordDisk,
    first: usize,
    end: usize,
) -> Vec<u32> {
    let mut found = Vec::new(alloc);
    for calls in first..=end {
        for leave in [Leave::Old, Leave::New, Leave::Byte(0x33)] {
            found
                .push(version_after(rt, alloc, record, calls, leave))
                .expect(rt, "no memory");
        }
    }
    found
}

/// Which change of inode 2 a crash comes within.
#[derive(Clone, Copy)]
enum Change {
    First,
    Next(Second),
}

/// Crashes within a change leave these versions.
fn leave_versions<R: Abort>(rt: &R, alloc: Global, change: Change, wanted: &[[u32; 3]]) {
    let mut record = new_record(rt, alloc, 160, 2_200_000);
    let found = match change {
        Change::First => {
            let [first, middle, _] = two_versions(rt, alloc, &mut record, Second::Adopted);
            versions(rt, alloc, &record, first, middle)
        }
        Change::Next(second) => {
            let [_, middle, end] = two_versions(rt, alloc, &mut record, second);
            versions(rt, alloc, &record, middle, end)
        }
    };
    holds(rt, found.as_slice() == wanted.as_flattened());
}

#[test]
fn a_crash_within_a_first_adoption_leaves_nothing_or_all(rt: HostRuntime) {
    // Two pages, the slot, a sync, the gate, a sync.
    let wanted = [
        [0, 0, 0],
        [0, 0, 0],
        [0, 0, 0],
        [0, 0, 0],
        [0, 0, 0],
        [0, 1, 0],
        [1, 1, 1],
    ];
    leave_versions(&rt, rt.alloc(), Change::First, &wanted);
}

#[test]
fn a_crash_within_an_adoption_leaves_the_older_version_or_the_adopted_one(rt: HostRuntime) {
    // Two pages, the slot, a sync, the gate, a sync, the old gate, a sync.
    let wanted = [
        [1, 1, 1],
        [1, 1, 1],
        [1, 1, 1],
        [1, 1, 1],
        [1, 1, 1],
        [1, 2, 1],
        [2, 2, 2],
        [2, 2, 2],
        [2, 2, 2],
    ];
    leave_versions(&rt, rt.alloc(), Change::Next(Second::Adopted), &wanted);
}

#[test]
fn a_crash_within_a_commit_leaves_the_older_version_or_the_committed_one(rt: HostRuntime) {
    // The marked page, the slot, a sync, the gate, a sync, the old gate, a sync.
    let wanted = [
        [1, 1, 1],
        [1, 1, 1],
        [1, 1, 1],
        [1, 1, 1],
        [1, 3, 1],
        [3, 3, 3],
        [3, 3, 3],
        [3, 3, 3],
    ];
    leave_versions(&rt, rt.alloc(), Change::Next(Second::Committed), &wanted);
}

#[test]
fn pages_are_written_ascending_and_the_slot_behind_them(rt: HostRuntime) {
    let ino = second_inode(&rt);
    let mut record = new_record(&rt, rt.alloc(), 160, 2_200_000);
    let [first, _, _] = two_versions(&rt, rt.alloc(), &mut record, Second::Adopted);
    // The first byte of both data pages, the kind in the slot, and its gate.
    let places = [
        page_place(&rt, 0, 0),
        page_place(&rt, 1, 0),
        slot_at(BASE, ino, Half::First) + 2,
        slot_at(BASE, ino, Half::First),
    ];
    for (more, want) in [
        (0, [0, 0, 0, 0]),
        (1, [7, 0, 0, 0]),
        (2, [7, 7, 0, 0]),
        (3, [7, 7, 1, 0]),
        (4, [7, 7, 1, 0]),
        (5, [7, 7, 1, 0xA5]),
    ] {
        let calls = first.saturating_add(more);
        let found = bytes_after(&rt, rt.alloc(), &record, calls, &places);
        holds(&rt, found.as_slice() == want.as_slice());
    }
}

#[test]
fn an_adoption_leaves_the_pages_of_the_older_version_and_closes_it_last(rt: HostRuntime) {
    let ino = second_inode(&rt);
    let mut record = new_record(&rt, rt.alloc(), 160, 2_200_000);
    let [_, middle, _] = two_versions(&rt, rt.alloc(), &mut record, Second::Adopted);
    // The first byte of four data pages, the kind in the other slot, its gate, and the gate of the older one.
    let places = [
        page_place(&rt, 0, 0),
        page_place(&rt, 1, 0),
        page_place(&rt, 2, 0),
        page_place(&rt, 3, 0),
        slot_at(BASE, ino, Half::Second) + 2,
        slot_at(BASE, ino, Half::Second),
        slot_at(BASE, ino, Half::First),
    ];
    for (more, want) in [
        (0, [7, 7, 0, 0, 0, 0, 0xA5]),
        (1, [7, 7, 9, 0, 0, 0, 0xA5]),
        (2, [7, 7, 9, 9, 0, 0, 0xA5]),
        (3, [7, 7, 9, 9, 1, 0, 0xA5]),
        (5, [7, 7, 9, 9, 1, 0xA5, 0xA5]),
        (7, [7, 7, 9, 9, 1, 0xA5, 0]),
    ] {
        let calls = middle.saturating_add(more);
        let found = bytes_after(&rt, rt.alloc(), &record, calls, &places);
        holds(&rt, found.as_slice() == want.as_slice());
    }
}

/// Mounts a new pack where so many reads pass.
fn mount_within<R: Abort>(rt: &R, alloc: Global, reads: u32) -> Option<MountFault> {
    let site = first_site(rt);
    let mut disk = new_disk(rt, alloc);
    settle(rt, &mut disk);
    assert!(rt; Sites(1).has(site));
    format(&mut disk, BASE, 0, site, Sites(1)).expect(rt, "a fault");
    disk.fail_read(reads);
    settle(rt, &mut disk);
    Pack::mount(alloc, &mut disk, BASE, 0, site).err()
}

#[test]
fn a_mount_reads_each_slot_once(rt: HostRuntime) {
    // The bytes that name the pack, and two slots of each of 1,024 inodes.
    holds(&rt, mount_within(&rt, rt.alloc(), 2_049) == None);
    holds(
        &rt,
        mount_within(&rt, rt.alloc(), 2_048) == Some(MountFault::Disk),
    );
}
