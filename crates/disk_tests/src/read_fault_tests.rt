// A disk that fails at a read.
ghost use Rattle.disk_model.specs.ScriptDisk.{moment};
ghost use Rattle.inode_pack.specs.Pack.{Stands};

use crate::checks::holds;
use crate::packs::{BASE, adopt, commit, new_disk, new_pack, second_inode};
use crate::table_tests::{byte_of, mount, numbered, put, two_open_slots};
use disk_model::{Disk, DiskFault, Fired, Leave, ScriptDisk};
use inode_pack::Pack;
use locus_ids::Ino;
use pack_layout::{Half, slot_at};
use pack_slots::MountFault;
use std::alloc::Global;
use std::process::Abort;

/// What the first page of an inode has, and the last one of 61, whose number stands in a table.
fn ends_of<R: Abort>(rt: &R, pack: &Pack, disk: &mut ScriptDisk, ino: Ino) -> [Option<u8>; 2]
    requires { Stands pack.now (moment disk.old) }
    ensures { Stands pack.now (moment disk.new) }
{
    let first = byte_of(rt, pack, disk, ino, 0);
    [first, byte_of(rt, pack, disk, ino, 60)]
}

/// A mount fails at the read behind so many, and the next one finds what was there before: inode 2, and the newer version of inode 4,
/// both slots of which are open.
fn fails_at<R: Abort>(rt: &R, alloc: Global, disk: &mut ScriptDisk, reads: u32) {
    let ino = Ino::new(4).expect(rt, "no inode");
    put(rt, disk, slot_at(BASE, ino, Half::First), &[0xA5, 0]);
    disk.fail_read(reads);
    holds(rt, mount(rt, alloc, disk).err() == Some(MountFault::Disk));
    holds(rt, disk.fired() == Fired::Fault);
    disk.crash(Leave::Byte(0x33));
    let pack = mount(rt, alloc, disk).expect(rt, "no pack");
    holds(
        rt,
        ends_of(rt, &pack, disk, second_inode(rt)) == [Some(7); 2],
    );
    holds(rt, ends_of(rt, &pack, disk, ino) == [Some(9); 2]);
}

#[test]
fn a_mount_fails_at_each_read_and_the_next_one_finds_what_was_there(rt: HostRuntime) {
    let mut disk = two_open_slots(&rt, rt.alloc());
    // The bytes that name the pack, two slots of each of 1,024 inodes, and the tables of three.
    for reads in 0..2_052 {
        fails_at(&rt, rt.alloc(), &mut disk, reads);
    }
    disk.fail_read(2_052);
    holds(&rt, mount(&rt, rt.alloc(), &mut disk).is_ok());
}

#[test]
fn an_adoption_and_a_commit_read_nothing(rt: HostRuntime) {
    let mut disk = new_disk(&rt, rt.alloc());
    // The mount of a new pack reads so often, and no read passes behind it.
    disk.fail_read(2_049);
    let mut pack = new_pack(&rt, rt.alloc(), &mut disk);
    let old = numbered(&rt, rt.alloc(), 61, 7);
    adopt(&rt, &mut pack, &mut disk, second_inode(&rt), &old);
    let new = numbered(&rt, rt.alloc(), 61, 9);
    commit(&rt, &mut pack, &mut disk, new.as_slice(), &[true; 1_084]);
    holds(&rt, disk.fired() == Fired::No);
    holds(&rt, disk.len() >= 1);
    holds(&rt, disk.read(0, &mut [0]) == Err(DiskFault::Failed));
}
