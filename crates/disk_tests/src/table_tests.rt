// Files whose page numbers stand in tables too.
ghost use Rattle.std.specs.Prelude.{◌≤◌, length, IfOk};
ghost use Rattle.locus_ids.specs.Sizes.{content_bytes_max};
ghost use Rattle.disk_model.specs.ScriptDisk.{moment};
ghost use Rattle.inode_pack.specs.Pack.{Stands};

use crate::checks::holds;
use crate::packs::{
    BASE, adopt, bytes_after, commit, crashed, first_site, new_disk, new_pack, new_record,
    page_place, second_inode, settle,
};
use disk_model::{Disk, Leave, RecordDisk, ScriptDisk};
use inode_pack::Pack;
use locus_ids::{Bytes, Ino, Sites};
use pack_layout::{Half, slot_at, table_at};
use pack_slots::{MountFault, format};
use std::alloc::Global;
use std::process::Abort;

/// The pages on both sides of where a slot, a table and a content end.
const BORDERS: [u16; 6] = [0, 59, 60, 571, 572, 1_083];

/// So many whole pages. Each has its number in its first two bytes, and this byte elsewhere.
pub fn numbered<R: Abort>(rt: &R, alloc: Global, pages: usize, byte: u8) -> Bytes
    ensures { length result ≤ content_bytes_max }
{
    assert!(rt; pages <= 1_084);
    let mut bytes = vec![in alloc; byte; 1_024 * pages].expect(rt, "no memory");
    for page in 0..pages {
        bytes[1_024 * page] = (page / 256) as u8;
        bytes[1_024 * page + 1] = (page % 256) as u8;
    }
    Bytes::from_slice(alloc, bytes.as_slice()).expect(rt, "no memory")
}

/// What a page of an inode's version has beside its number; none where its number is another one.
pub fn byte_of<D: Disk, R: Abort>(
    rt: &R,
    pack: &Pack,
    disk: &mut D,
    ino: Ino,
    page: u16,
) -> Option<u8>
    requires { Stands pack.now (D.moment disk.old) }
    ensures { Stands pack.now (D.moment disk.new) }
{
    let slot = pack.copy(ino.get()).expect(rt, "no version");
    assert!(rt; u32::from(page) * 1_024 < slot.size);
    let mut bytes = [0; 1_024];
    pack.read_page(disk, ino.get(), page, &mut bytes)
        .expect(rt, "a fault");
    if bytes[..2] != [(page / 256) as u8, (page % 256) as u8] {
        return None;
    }
    Some(bytes[1_023])
}

/// Mounts the pack.
pub fn mount<R: Abort>(rt: &R, alloc: Global, disk: &mut ScriptDisk) -> Result<Pack, MountFault>
    ensures { IfOk result (λ pack. Stands pack (moment disk.new)) }
{
    settle(rt, disk);
    Pack::mount(alloc, disk, BASE, 0, first_site(rt))
}

/// The first of 1,084 pages of inode 2 that doesn't have this byte.
fn first_other<R: Abort>(rt: &R, pack: &Pack, disk: &mut ScriptDisk, byte: u8) -> Option<u16>
    requires { Stands pack.now (moment disk.old) }
{
    let ino = second_inode(rt);
    for page in 0..1_084 {
        if byte_of(rt, pack, disk, ino, page) != Some(byte) {
            return Some(page);
        }
    }
    None
}

#[test]
fn a_mount_gives_each_page_of_the_greatest_content_back(rt: HostRuntime) {
    let mut disk = new_disk(&rt, rt.alloc());
    let mut pack = new_pack(&rt, rt.alloc(), &mut disk);
    let old = numbered(&rt, rt.alloc(), 1_084, 7);
    adopt(&rt, &mut pack, &mut disk, second_inode(&rt), &old);
    holds(&rt, pack.free_pages() == 1_988);
    let new = numbered(&rt, rt.alloc(), 1_084, 9);
    commit(&rt, &mut pack, &mut disk, new.as_slice(), &[true; 1_084]);
    holds(&rt, pack.free_pages() == 1_988);
    let again = mount(&rt, rt.alloc(), &mut disk).expect(&rt, "no pack");
    holds(&rt, first_other(&rt, &again, &mut disk, 9) == None);
}

/// How the second version comes: all its pages are written, or those of the marks.
#[derive(Clone, Copy)]
enum Second {
    Adopted,
    Committed([bool; 1_084]),
}

/// A new pack with two versions of inode 2 that have so many pages, and how many calls there were before the second one and at
/// the end.
fn two_versions<R: Abort>(
    rt: &R,
    alloc: Global,
    disk: &mut RecordDisk,
    pages: usize,
    second: Second,
) -> [usize; 2] {
    let site = first_site(rt);
    let ino = second_inode(rt);
    holds(rt, disk.len() >= 5_310_464);
    holds(rt, Sites(1).has(site));
    format(disk, BASE, 0, site, Sites(1)).expect(rt, "a fault");
    let mut pack = Pack::mount(alloc, disk, BASE, 0, site).expect(rt, "no pack");
    adopt(rt, &mut pack, disk, ino, &numbered(rt, alloc, pages, 7));
    let before = disk.calls();
    let new = numbered(rt, alloc, pages, 9);
    match second {
        Second::Adopted => adopt(rt, &mut pack, disk, ino, &new),
        Second::Committed(marks) => commit(rt, &mut pack, disk, new.as_slice(), &marks),
    }
    [before, disk.calls()]
}

/// What the pages at the borders have after a crash at this moment.
fn borders_after<R: Abort>(
    rt: &R,
    alloc: Global,
    record: &RecordDisk,
    calls: usize,
    leave: Leave,
) -> [Option<u8>; 6] {
    let mut disk = crashed(rt, alloc, record, calls, leave);
    let pack = mount(rt, alloc, &mut disk).expect(rt, "no pack");
    borders(rt, &pack, &mut disk)
}

/// What the pages of inode 2 at the borders have.
fn borders<R: Abort>(rt: &R, pack: &Pack, disk: &mut ScriptDisk) -> [Option<u8>; 6]
    requires { Stands pack.now (moment disk.old) }
{
    let ino = second_inode(rt);
    let mut found = [None; 6];
    for i in 0..6 {
        found[i] = byte_of(rt, pack, disk, ino, BORDERS[i]);
    }
    found
}

/// What the pages at the borders have after a crash once so many calls of a change were made, of which this one opens its gate.
fn is_old_or_new(
    made: usize,
    gate: usize,
    leave: Leave,
    found: [Option<u8>; 6],
    new: [u8; 6],
) -> bool {
    let opened = match leave {
        Leave::New => made >= gate,
        _ => made > gate,
    };
    let wanted = if opened { new } else { [7; 6] };
    for i in 0..6 {
        if found[i] != Some(wanted[i]) {
            return false;
        }
    }
    true
}

/// A change that was made within these calls, the gate that opens with one of them, and what its version has at the borders.
#[derive(Clone, Copy)]
struct Change {
    calls: [usize; 2],
    gate: usize,
    new: [u8; 6],
}

/// Each crash within a change, of those that leave this, leaves the older version or the newer one.
fn leaves_old_or_new<R: Abort>(
    rt: &R,
    alloc: Global,
    record: &RecordDisk,
    change: Change,
    leave: Leave,
) {
    let [before, end] = change.calls;
    for calls in before..=end {
        let found = borders_after(rt, alloc, record, calls, leave);
        let made = calls.saturating_sub(before);
        holds(
            rt,
            is_old_or_new(made, change.gate, leave, found, change.new),
        );
    }
}

/// Each crash within a change of all pages of the greatest content, of those that leave this, leaves the older content or the newer one.
fn greatest_is_old_or_new<R: Abort>(rt: &R, alloc: Global, second: Second, leave: Leave) {
    let mut record = new_record(rt, alloc, 2_400, 4_400_000);
    let calls = two_versions(rt, alloc, &mut record, 1_084, second);
    let [before, end] = calls;
    // 1,084 pages, two tables, the slot, a sync, the gate, a sync, the old gate, a sync.
    holds(rt, end == before.saturating_add(1_092));
    let (gate, new) = (1_089, [9; 6]);
    leaves_old_or_new(rt, alloc, &record, Change { calls, gate, new }, leave);
}

#[test]
fn the_greatest_adoption_is_whole_or_absent_where_a_crash_loses_writes(rt: HostRuntime) {
    greatest_is_old_or_new(&rt, rt.alloc(), Second::Adopted, Leave::Old);
}

#[test]
fn the_greatest_adoption_is_whole_or_absent_where_a_crash_keeps_writes(rt: HostRuntime) {
    greatest_is_old_or_new(&rt, rt.alloc(), Second::Adopted, Leave::New);
}

#[test]
fn the_greatest_adoption_is_whole_or_absent_where_a_crash_spoils_writes(rt: HostRuntime) {
    greatest_is_old_or_new(&rt, rt.alloc(), Second::Adopted, Leave::Byte(0x33));
}

#[test]
fn the_greatest_commit_is_whole_or_absent_where_a_crash_loses_writes(rt: HostRuntime) {
    let second = Second::Committed([true; 1_084]);
    greatest_is_old_or_new(&rt, rt.alloc(), second, Leave::Old);
}

#[test]
fn the_greatest_commit_is_whole_or_absent_where_a_crash_keeps_writes(rt: HostRuntime) {
    let second = Second::Committed([true; 1_084]);
    greatest_is_old_or_new(&rt, rt.alloc(), second, Leave::New);
}

#[test]
fn the_greatest_commit_is_whole_or_absent_where_a_crash_spoils_writes(rt: HostRuntime) {
    let second = Second::Committed([true; 1_084]);
    greatest_is_old_or_new(&rt, rt.alloc(), second, Leave::Byte(0x33));
}

#[test]
fn a_commit_writes_the_table_of_a_changed_page_alone(rt: HostRuntime) {
    let mut record = new_record(&rt, rt.alloc(), 1_300, 4_400_000);
    let mut marks = [false; 1_084];
    marks[59] = true;
    marks[572] = true;
    let second = Second::Committed(marks);
    let calls = two_versions(&rt, rt.alloc(), &mut record, 1_084, second);
    let [before, end] = calls;
    // Two pages, the second table, the slot, a sync, the gate, a sync, the old gate, a sync.
    holds(&rt, end == before.saturating_add(9));
    let (gate, new) = (6, [7, 9, 7, 7, 9, 7]);
    let change = Change { calls, gate, new };
    for leave in [Leave::Old, Leave::New, Leave::Byte(0x33)] {
        leaves_old_or_new(&rt, rt.alloc(), &record, change, leave);
    }
}

#[test]
fn a_table_is_written_behind_all_pages_and_before_the_slot(rt: HostRuntime) {
    let ino = second_inode(&rt);
    let mut record = new_record(&rt, rt.alloc(), 300, 2_400_000);
    let all = Second::Committed([true; 1_084]);
    let [before, _] = two_versions(&rt, rt.alloc(), &mut record, 61, all);
    // The last of the 61 data pages behind the older ones, the table behind the older one, the kind in the slot, and its gate.
    let places = [
        page_place(&rt, 121, 1_023),
        table_at(BASE, 1) + 1,
        slot_at(BASE, ino, Half::Second) + 2,
        slot_at(BASE, ino, Half::Second),
    ];
    for (more, want) in [
        (60, [0, 0, 0, 0]),
        (61, [9, 0, 0, 0]),
        (62, [9, 121, 0, 0]),
        (63, [9, 121, 1, 0]),
        (64, [9, 121, 1, 0]),
        (65, [9, 121, 1, 0xA5]),
    ] {
        let calls = before.saturating_add(more);
        let found = bytes_after(&rt, rt.alloc(), &record, calls, &places);
        holds(&rt, found.as_slice() == want.as_slice());
    }
}

#[test]
fn both_tables_are_written_ascending_behind_all_pages(rt: HostRuntime) {
    let ino = second_inode(&rt);
    let mut record = new_record(&rt, rt.alloc(), 2_400, 4_400_000);
    let all = Second::Committed([true; 1_084]);
    let [before, _] = two_versions(&rt, rt.alloc(), &mut record, 1_084, all);
    // The last of the 1,084 data pages behind the older ones, both tables behind the older ones, the kind in the slot, and its gate.
    let places = [
        page_place(&rt, 2_167, 1_023),
        table_at(BASE, 2),
        table_at(BASE, 3),
        slot_at(BASE, ino, Half::Second) + 2,
        slot_at(BASE, ino, Half::Second),
    ];
    for (more, want) in [
        (1_083, [0, 0, 0, 0, 0]),
        (1_084, [9, 0, 0, 0, 0]),
        (1_085, [9, 4, 0, 0, 0]),
        (1_086, [9, 4, 6, 0, 0]),
        (1_087, [9, 4, 6, 1, 0]),
        (1_088, [9, 4, 6, 1, 0]),
        (1_089, [9, 4, 6, 1, 0xA5]),
    ] {
        let calls = before.saturating_add(more);
        let found = bytes_after(&rt, rt.alloc(), &record, calls, &places);
        holds(&rt, found.as_slice() == want.as_slice());
    }
}

/// Writes two bytes.
pub fn put<R: Abort>(rt: &R, disk: &mut ScriptDisk, at: u32, bytes: &[u8; 2]) {
    holds(rt, at < disk.len().saturating_sub(1));
    disk.write_at(at, bytes).expect(rt, "a fault");
}

/// The inodes 2 and 3 of a new pack, each with 61 pages. Their tables are 0 and 1.
fn two_tables<R: Abort>(rt: &R, alloc: Global) -> ScriptDisk {
    let mut disk = new_disk(rt, alloc);
    let mut pack = new_pack(rt, alloc, &mut disk);
    let content = numbered(rt, alloc, 61, 7);
    adopt(rt, &mut pack, &mut disk, second_inode(rt), &content);
    adopt(rt, &mut pack, &mut disk, third_inode(rt), &content);
    disk
}

fn third_inode<R: Abort>(rt: &R) -> Ino {
    Ino::new(3).expect(rt, "no inode")
}

#[test]
fn a_mount_refuses_a_shared_table_before_the_pages_that_it_names(rt: HostRuntime) {
    let mut disk = two_tables(&rt, rt.alloc());
    holds(&rt, mount(&rt, rt.alloc(), &mut disk).is_ok());
    let table = slot_at(BASE, third_inode(&rt), Half::First) + 200;
    put(&rt, &mut disk, table, &[0, 0]);
    let fault = mount(&rt, rt.alloc(), &mut disk).err();
    holds(&rt, fault == Some(MountFault::SharedTable { table: 0 }));
}

#[test]
fn a_mount_refuses_a_table_that_its_slot_may_not_have(rt: HostRuntime) {
    // A page that the slot names too, a page of no area, and a number behind that of the last page.
    for (at, bytes) in [(0, [0, 0]), (0, [12, 0]), (2, [0, 9])] {
        let mut disk = two_tables(&rt, rt.alloc());
        put(&rt, &mut disk, table_at(BASE, 0) + at, &bytes);
        let fault = mount(&rt, rt.alloc(), &mut disk).err();
        assert!(rt; fault == Some(MountFault::BadSlot { ino: 2 }), "at {at}");
    }
}

#[test]
fn a_mount_reads_each_table_of_the_slots_that_count_once(rt: HostRuntime) {
    // The bytes that name the pack, two slots of each of 1,024 inodes, and two tables.
    for (reads, fault) in [(2_051, None), (2_050, Some(MountFault::Disk))] {
        let mut disk = two_tables(&rt, rt.alloc());
        disk.fail_read(reads);
        holds(&rt, mount(&rt, rt.alloc(), &mut disk).err() == fault);
    }
}

/// The same two inodes, and inode 4 with two versions of 61 pages, both slots of which are open: the older one's table is 2, and
/// the one that counts has table 3.
pub fn two_open_slots<R: Abort>(rt: &R, alloc: Global) -> ScriptDisk {
    let mut disk = two_tables(rt, alloc);
    let mut pack = mount(rt, alloc, &mut disk).expect(rt, "no pack");
    let content = numbered(rt, alloc, 61, 7);
    let ino = Ino::new(4).expect(rt, "no inode");
    adopt(rt, &mut pack, &mut disk, ino, &content);
    let content = numbered(rt, alloc, 61, 9);
    adopt(rt, &mut pack, &mut disk, ino, &content);
    put(rt, &mut disk, slot_at(BASE, ino, Half::First), &[0xA5, 0]);
    disk
}

#[test]
fn a_mount_reads_no_table_of_a_slot_that_loses(rt: HostRuntime) {
    // The same, and the one table that counts of the third inode.
    for (reads, fault) in [(2_052, None), (2_051, Some(MountFault::Disk))] {
        let mut disk = two_open_slots(&rt, rt.alloc());
        disk.fail_read(reads);
        holds(&rt, mount(&rt, rt.alloc(), &mut disk).err() == fault);
    }
}
