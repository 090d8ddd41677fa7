use crate::checks::holds;
use disk_model::{Disk, DiskFault, Fired, Leave, RecordDisk, ScriptDisk};
use std::alloc::Global;
use std::process::Abort;

/// A disk of eight zeros.
fn small_disk<R: Abort>(rt: &R, alloc: Global) -> ScriptDisk {
    ScriptDisk::new(alloc, 8).expect(rt, "no memory")
}

/// What the disk answers to a write of bytes that it has.
fn write<D: Disk, R: Abort>(
    rt: &R,
    disk: &mut D,
    at: u32,
    bytes: &[u8; 2],
) -> Result<(), DiskFault> {
    assert!(rt; disk.len() >= 8);
    assert!(rt; at <= 6);
    disk.write_at(at, bytes)
}

/// The first eight bytes, or none where the disk fails.
fn bytes_of<D: Disk, R: Abort>(rt: &R, disk: &mut D) -> Option<[u8; 8]> {
    assert!(rt; disk.len() >= 8);
    let mut bytes = [0; 8];
    match disk.read(0, &mut bytes) {
        Ok(()) => Some(bytes),
        Err(DiskFault::Failed) => None,
    }
}

/// A disk whose second and third byte are durable, and whose third and fourth are written over them.
fn written<R: Abort>(rt: &R, alloc: Global) -> ScriptDisk {
    let mut disk = small_disk(rt, alloc);
    write(rt, &mut disk, 1, &[1, 1]).expect(rt, "a fault");
    disk.sync().expect(rt, "a fault");
    write(rt, &mut disk, 2, &[2, 2]).expect(rt, "a fault");
    disk
}

#[test]
fn a_crash_leaves_what_it_is_told(rt: HostRuntime) {
    for (leave, wanted) in [
        (Leave::Old, [0, 1, 1, 0, 0, 0, 0, 0]),
        (Leave::New, [0, 1, 2, 2, 0, 0, 0, 0]),
        (Leave::Byte(9), [0, 1, 9, 9, 0, 0, 0, 0]),
    ] {
        let mut disk = written(&rt, rt.alloc());
        disk.crash(leave);
        holds(&rt, bytes_of(&rt, &mut disk) == Some(wanted));
        holds(&rt, disk.fired() == Fired::No);
    }
}

/// What a write, a sync and a read answer.
fn three_calls<R: Abort>(rt: &R, disk: &mut ScriptDisk) -> [bool; 3] {
    [
        write(rt, disk, 4, &[5, 5]).is_ok(),
        disk.sync().is_ok(),
        bytes_of(rt, disk).is_some(),
    ]
}

#[test]
fn an_armed_call_stops_the_disk_until_the_crash(rt: HostRuntime) {
    for (passing, leave, calls, wanted) in [
        (0, Leave::Old, [false, false, false], [0, 0]),
        (0, Leave::New, [false, false, false], [5, 5]),
        (0, Leave::Byte(3), [false, false, false], [3, 3]),
        (1, Leave::Old, [true, false, false], [0, 0]),
        (1, Leave::New, [true, false, false], [5, 5]),
    ] {
        let mut disk = small_disk(&rt, rt.alloc());
        disk.arm_stop(passing, leave);
        holds(&rt, three_calls(&rt, &mut disk) == calls);
        holds(&rt, disk.fired() == Fired::Stop);
        disk.crash(leave);
        let [first, second] = wanted;
        holds(
            &rt,
            bytes_of(&rt, &mut disk) == Some([0, 0, 0, 0, first, second, 0, 0]),
        );
    }
}

#[test]
fn an_armed_call_that_fails_writes_nothing(rt: HostRuntime) {
    for (passing, calls, fired, wanted) in [
        (0, [false, false, false], Fired::Fault, 0),
        (1, [true, false, false], Fired::Fault, 5),
        (2, [true, true, true], Fired::No, 5),
    ] {
        let mut disk = small_disk(&rt, rt.alloc());
        disk.arm_fail(passing);
        holds(&rt, three_calls(&rt, &mut disk) == calls);
        holds(&rt, disk.fired() == fired);
        disk.crash(Leave::New);
        holds(
            &rt,
            bytes_of(&rt, &mut disk) == Some([0, 0, 0, 0, wanted, wanted, 0, 0]),
        );
    }
}

#[test]
fn a_read_that_is_to_fail_fails_each_later_call(rt: HostRuntime) {
    let mut disk = small_disk(&rt, rt.alloc());
    disk.fail_read(1);
    holds(&rt, bytes_of(&rt, &mut disk) == Some([0; 8]));
    holds(&rt, bytes_of(&rt, &mut disk) == None);
    holds(&rt, three_calls(&rt, &mut disk) == [false, false, false]);
}

/// What another disk has once so many of the kept calls are made on it.
fn replayed<R: Abort>(rt: &R, alloc: Global, record: &RecordDisk, calls: usize) -> Option<[u8; 8]> {
    let mut disk = small_disk(rt, alloc);
    holds(rt, calls <= record.calls());
    holds(rt, disk.len() == record.len());
    record.replay(calls, &mut disk).expect(rt, "a fault");
    bytes_of(rt, &mut disk)
}

#[test]
fn a_record_is_replayed_call_by_call(rt: HostRuntime) {
    let mut record = RecordDisk::new(rt.alloc(), 8, 3, 5).expect(&rt, "no memory");
    write(&rt, &mut record, 0, &[1, 2]).expect(&rt, "a fault");
    record.sync().expect(&rt, "a fault");
    write(&rt, &mut record, 1, &[3, 4]).expect(&rt, "a fault");
    // No room for a call more.
    holds(&rt, record.sync() == Err(DiskFault::Failed));
    holds(&rt, record.calls() == 3);
    for (calls, wanted) in [
        (0, [0, 0, 0, 0, 0, 0, 0, 0]),
        (1, [1, 2, 0, 0, 0, 0, 0, 0]),
        (2, [1, 2, 0, 0, 0, 0, 0, 0]),
        (3, [1, 3, 4, 0, 0, 0, 0, 0]),
    ] {
        holds(
            &rt,
            replayed(&rt, rt.alloc(), &record, calls) == Some(wanted),
        );
    }
}

#[test]
fn a_record_has_room_for_its_bytes_alone(rt: HostRuntime) {
    let mut record = RecordDisk::new(rt.alloc(), 8, 9, 3).expect(&rt, "no memory");
    write(&rt, &mut record, 0, &[1, 2]).expect(&rt, "a fault");
    holds(
        &rt,
        write(&rt, &mut record, 4, &[3, 4]) == Err(DiskFault::Failed),
    );
    holds(
        &rt,
        bytes_of(&rt, &mut record) == Some([1, 2, 0, 0, 0, 0, 0, 0]),
    );
}
