// What the tests of packs make and look at. Where a call fails, the test ends: so a function has no exit behind each of its calls.
ghost use Rattle.std.specs.Prelude.{◌≡◌, ℕ, ◌≤◌, ◌<◌, ◌+◌, ◌^◌, true, length};
ghost use Rattle.locus_ids.specs.Sizes.{content_bytes_max};
ghost use Rattle.disk_model.specs.Disk.{IsSettled};
ghost use Rattle.disk_model.specs.ScriptDisk.{seen, moment};
ghost use Rattle.pack_layout.specs.Layout.{area_length};
ghost use Rattle.inode_pack.specs.Pack.{Stands};
ghost use Rattle.new_contents.specs.Laid.{has_come};
ghost use Rattle.stored_versions.specs.Versions.{IsVersion};
ghost use Rattle.stored_versions.specs.of_file_content.Pages.{pages_of};

use disk_model::{Disk, Leave, RecordDisk, ScriptDisk};
use inode_pack::{LaidPages, NewVersion, Pack};
use locus_ids::sizes::PAGE_BYTES;
use locus_ids::{Bytes, Ino, ItemList, Kind, SiteId, Sites, Stamp};
use new_contents::page_count;
use pack_layout::page_at;
use pack_slots::format;
use std::alloc::Global;
use std::process::Abort;
use version_vector::Vector;

pub const BASE: u32 = 1_024;

/// The length of a disk with one pack. It has no contract, so that no proof spells out so many zeros.
pub fn disk_length() -> u32 {
    5_310_464
}

pub fn first_site<R: Abort>(rt: &R) -> SiteId {
    SiteId::new(1).expect(rt, "no site")
}

pub fn second_inode<R: Abort>(rt: &R) -> Ino {
    Ino::new(2).expect(rt, "no inode")
}

/// A version of a file that nobody has changed yet. It may have any content.
pub fn unchanged_file(set: Sites) -> NewVersion
    requires some { 1 ≤ set.0 }
    requires sites { set.0 < 2 ^ 16 }
    ensures { (n : ℕ) → n ≤ content_bytes_max → IsVersion result n }
{
    NewVersion {
        kind: Kind::File,
        set,
        stamp: Stamp { site: 0, n: 0 },
        vector: Vector::zero(),
    }
}

/// A disk of zeros with room for one pack.
pub fn new_disk<R: Abort>(rt: &R, alloc: Global) -> ScriptDisk {
    ScriptDisk::new(alloc, disk_length()).expect(rt, "no memory")
}

/// A disk with room for one pack that keeps so many calls and so many written bytes.
pub fn new_record<R: Abort>(rt: &R, alloc: Global, calls: u32, bytes: u32) -> RecordDisk {
    RecordDisk::new(alloc, disk_length(), calls, bytes).expect(rt, "no memory")
}

/// A new pack of group 0.
pub fn new_pack<R: Abort>(rt: &R, alloc: Global, disk: &mut ScriptDisk) -> Pack
    ensures { Stands result (moment disk.new) }
{
    let site = first_site(rt);
    settle(rt, disk);
    assert!(rt; Sites(1).has(site));
    format(disk, BASE, 0, site, Sites(1)).expect(rt, "a fault");
    settle(rt, disk);
    Pack::mount(alloc, disk, BASE, 0, site).expect(rt, "no pack")
}

/// Adopts a version of an inode.
pub fn adopt<D: Disk, R: Abort>(rt: &R, pack: &mut Pack, disk: &mut D, ino: Ino, content: &Bytes)
    requires stands { Stands pack.old (D.moment disk.old) }
    requires size { length content.now ≤ content_bytes_max }
    ensures stands { Stands pack.new (D.moment disk.new) }
{
    let numbers = all_pages(rt, content);
    let came = LaidPages {
        size: content.len() as u32,
        numbers: numbers.as_slice(),
        bytes: content.as_slice(),
    };
    pack.adopt(disk, ino, &unchanged_file(Sites(1)), &came)
        .expect(rt, "not adopted");
}

/// The numbers of all pages of a content.
fn all_pages<R: Abort>(rt: &R, content: &Bytes) -> ItemList<u16>
    requires { length content.now ≤ content_bytes_max }
    ensures { (page : ℕ) → page < pages_of (length content.now) → has_come result page ≡ true }
{
    let mut numbers = ItemList::new(content.allocator());
    for page in 0..page_count(content.len() as u32) {
        numbers.push(page).expect(rt, "no memory");
    }
    numbers
}

/// Adopts a content of which the first page alone came, over the version of inode 2, which is as long or longer.
pub fn adopt_first_page<R: Abort>(rt: &R, pack: &mut Pack, disk: &mut ScriptDisk, content: &[u8])
    requires stands { Stands pack.old (moment disk.old) }
    requires size { length content.now ≤ content_bytes_max }
    ensures stands { Stands pack.new (moment disk.new) }
{
    let ino = second_inode(rt);
    let slot = pack.copy(ino.get()).expect(rt, "no version");
    assert!(rt; slot.size as usize >= content.len());
    let came = LaidPages {
        size: content.len() as u32,
        numbers: &[0],
        bytes: content.get(..PAGE_BYTES).expect(rt, "no page"),
    };
    pack.adopt(disk, ino, &unchanged_file(Sites(1)), &came)
        .expect(rt, "not adopted");
}

/// A content of a page and a half, and the same byte everywhere.
pub fn page_and_half<R: Abort>(rt: &R, alloc: Global, byte: u8) -> Bytes
    ensures { length result ≤ content_bytes_max }
{
    Bytes::from_slice(alloc, &[byte; 1_536]).expect(rt, "no memory")
}

/// Commits a content over the version of inode 2, which is as long or longer. Only the marked pages are written.
pub fn commit<D: Disk, R: Abort>(
    rt: &R,
    pack: &mut Pack,
    disk: &mut D,
    content: &[u8],
    marks: &[bool; 1_084],
)
    requires stands { Stands pack.old (D.moment disk.old) }
    requires size { length content.now ≤ content_bytes_max }
    ensures stands { Stands pack.new (D.moment disk.new) }
{
    let ino = second_inode(rt);
    let slot = pack.copy(ino.get()).expect(rt, "no version");
    assert!(rt; slot.size as usize >= content.len());
    pack.commit(disk, ino, &unchanged_file(Sites(1)), content, marks)
        .expect(rt, "not committed");
}

/// Commits a content of which the first page alone is written.
pub fn commit_first_page<D: Disk, R: Abort>(rt: &R, pack: &mut Pack, disk: &mut D, content: &[u8])
    requires stands { Stands pack.old (D.moment disk.old) }
    requires size { length content.now ≤ content_bytes_max }
    ensures stands { Stands pack.new (D.moment disk.new) }
{
    let mut marks = [false; 1_084];
    marks[0] = true;
    commit(rt, pack, disk, content, &marks);
}

/// The disk that a crash at this moment leaves.
pub fn crashed<R: Abort>(
    rt: &R,
    alloc: Global,
    record: &RecordDisk,
    calls: usize,
    leave: Leave,
) -> ScriptDisk {
    let mut disk = new_disk(rt, alloc);
    assert!(rt; calls <= record.calls());
    assert!(rt; disk.len() == record.len());
    record.replay(calls, &mut disk).expect(rt, "a fault");
    disk.crash(leave);
    disk
}

/// Makes all durable, so that a pack may be mounted.
pub fn settle<R: Abort>(rt: &R, disk: &mut ScriptDisk)
    ensures area { 1024 + area_length ≤ length (seen disk.new) }
    ensures settled { IsSettled (moment disk.new) }
{
    disk.sync().expect(rt, "a fault");
    assert!(rt; disk.len() >= 5_310_464);
}

/// Where a byte of a data page stands.
pub fn page_place<R: Abort>(rt: &R, page: u16, at: u32) -> u32 {
    assert!(rt; page < 3_072);
    assert!(rt; at < 1_024);
    page_at(BASE, page) + at
}

/// A byte of the disk.
pub fn byte_at<R: Abort>(rt: &R, disk: &mut ScriptDisk, at: u32) -> u8 {
    let mut byte = [0];
    assert!(rt; at < disk.len());
    disk.read(at, &mut byte).expect(rt, "a fault");
    byte[0]
}

/// The bytes at these places of the disk that a crash at this moment leaves, with torn bytes new.
pub fn bytes_after<R: Abort>(
    rt: &R,
    alloc: Global,
    record: &RecordDisk,
    calls: usize,
    places: &[u32],
) -> Vec<u8> {
    let mut disk = crashed(rt, alloc, record, calls, Leave::New);
    let mut found = Vec::new(alloc);
    for at in places {
        found
            .push(byte_at(rt, &mut disk, *at))
            .expect(rt, "no memory");
    }
    found
}
