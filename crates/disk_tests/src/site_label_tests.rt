use crate::checks::holds;
use disk_model::{Disk, Leave, RecordDisk, ScriptDisk};
use locus_ids::SiteId;
use site_label::{Label, LabelFault};
use std::alloc::Global;
use std::process::Abort;

fn third_site<R: Abort>(rt: &R) -> SiteId {
    SiteId::new(3).expect(rt, "no site")
}

/// A disk of 1,024 bytes that keeps its calls.
fn new_record<R: Abort>(rt: &R, alloc: Global) -> RecordDisk {
    RecordDisk::new(alloc, 1_024, 16, 4_096).expect(rt, "no memory")
}

fn new_disk<R: Abort>(rt: &R, alloc: Global) -> ScriptDisk {
    ScriptDisk::new(alloc, 1_024).expect(rt, "no memory")
}

/// Makes a label and boots it, and gives how many calls there were before the boot and at its end.
fn booted<R: Abort>(rt: &R, disk: &mut RecordDisk) -> [usize; 2] {
    holds(rt, disk.len() >= 1_024);
    Label::format(disk, third_site(rt)).expect(rt, "a fault");
    holds(rt, disk.len() >= 1_024);
    let first = disk.calls();
    Label::boot(disk, third_site(rt)).expect(rt, "no label");
    [first, disk.calls()]
}

/// The boot number of the disk that a crash at this moment leaves.
fn number_after<R: Abort>(
    rt: &R,
    alloc: Global,
    record: &RecordDisk,
    calls: usize,
    leave: Leave,
) -> u32 {
    let mut disk = new_disk(rt, alloc);
    assert!(rt; calls <= record.calls());
    assert!(rt; disk.len() == record.len());
    record.replay(calls, &mut disk).expect(rt, "a fault");
    disk.crash(leave);
    assert!(rt; disk.len() >= 1_024);
    Label::number(&mut disk, third_site(rt)).expect(rt, "no label")
}

#[test]
fn a_crash_leaves_the_number_or_the_raised_one(rt: HostRuntime) {
    let alloc = rt.alloc();
    let mut record = new_record(&rt, alloc);
    let [first, end] = booted(&rt, &mut record);
    let mut found = Vec::new(alloc);
    for calls in first..=end {
        for leave in [Leave::Old, Leave::New, Leave::Byte(0x33)] {
            found
                .push(number_after(&rt, alloc, &record, calls, leave))
                .expect(&rt, "no memory");
        }
    }
    // The half, a sync, its gate, a sync, the old gate, a sync.
    let wanted = [
        [1, 1, 1],
        [1, 1, 1],
        [1, 1, 1],
        [1, 2, 1],
        [2, 2, 2],
        [2, 2, 2],
        [2, 2, 2],
    ];
    holds(&rt, found.as_slice() == wanted.as_flattened());
}

/// How many calls a boot makes on a disk of these bytes.
fn calls_of_boot<R: Abort>(rt: &R, alloc: Global, bytes: &[u8; 1_024]) -> usize {
    let mut disk = new_record(rt, alloc);
    holds(rt, disk.len() >= 1_024);
    disk.write_at(0, bytes).expect(rt, "a fault");
    disk.sync().expect(rt, "a fault");
    holds(rt, disk.len() >= 1_024);
    let first = disk.calls();
    Label::boot(&mut disk, third_site(rt)).expect(rt, "no label");
    disk.calls().abs_diff(first)
}

#[test]
fn a_boot_makes_six_calls_and_two_more_where_both_halves_are_open(rt: HostRuntime) {
    let mut bytes = [0; 1_024];
    bytes[..14].copy_from_slice(b"\xA5LOCUSLB1\x03\0\0\0\x07");
    holds(&rt, calls_of_boot(&rt, rt.alloc(), &bytes) == 6);
    bytes[512..526].copy_from_slice(b"\xA5LOCUSLB1\x03\0\0\0\x09");
    holds(&rt, calls_of_boot(&rt, rt.alloc(), &bytes) == 8);
}

/// Boots a disk of these bytes.
fn boot_of<R: Abort>(rt: &R, alloc: Global, bytes: &[u8; 1_024]) -> Result<u32, LabelFault> {
    let mut disk = new_disk(rt, alloc);
    holds(rt, disk.len() >= 1_024);
    disk.write_at(0, bytes).expect(rt, "a fault");
    disk.sync().expect(rt, "a fault");
    holds(rt, disk.len() >= 1_024);
    Label::boot(&mut disk, third_site(rt))
}

#[test]
fn other_bytes_are_no_label(rt: HostRuntime) {
    let mut half = [0; 512];
    half[..14].copy_from_slice(b"\xA5LOCUSLB1\x03\0\0\0\x07");
    let mut bytes = [0; 1_024];
    holds(
        &rt,
        boot_of(&rt, rt.alloc(), &bytes) == Err(LabelFault::NotALabel),
    );
    bytes[..512].copy_from_slice(&half);
    holds(&rt, boot_of(&rt, rt.alloc(), &bytes) == Ok(8));
    bytes[512..].copy_from_slice(&half);
    holds(
        &rt,
        boot_of(&rt, rt.alloc(), &bytes) == Err(LabelFault::NotALabel),
    );
    bytes[525] = 9;
    holds(&rt, boot_of(&rt, rt.alloc(), &bytes) == Ok(10));
    bytes[1_023] = 1;
    holds(
        &rt,
        boot_of(&rt, rt.alloc(), &bytes) == Err(LabelFault::NotALabel),
    );
    bytes[512] = 0;
    holds(&rt, boot_of(&rt, rt.alloc(), &bytes) == Ok(8));
    bytes[9] = 4;
    holds(
        &rt,
        boot_of(&rt, rt.alloc(), &bytes) == Err(LabelFault::NotALabel),
    );
    bytes[9] = 3;
    bytes[10..14].copy_from_slice(&[0xFF; 4]);
    holds(
        &rt,
        boot_of(&rt, rt.alloc(), &bytes) == Err(LabelFault::Spent),
    );
}

/// What a boot answers where so many reads pass, and the number that it leaves.
fn boot_within<R: Abort>(rt: &R, alloc: Global, reads: u32) -> (Result<u32, LabelFault>, u32) {
    let mut disk = new_disk(rt, alloc);
    holds(rt, disk.len() >= 1_024);
    Label::format(&mut disk, third_site(rt)).expect(rt, "a fault");
    disk.fail_read(reads);
    disk.sync().expect(rt, "a fault");
    holds(rt, disk.len() >= 1_024);
    let answer = Label::boot(&mut disk, third_site(rt));
    disk.crash(Leave::New);
    holds(rt, disk.len() >= 1_024);
    let left = Label::number(&mut disk, third_site(rt)).expect(rt, "no label");
    (answer, left)
}

#[test]
fn a_boot_fails_at_each_read_and_leaves_the_number(rt: HostRuntime) {
    // Each half is read once.
    for (reads, answer, left) in [
        (0, Err(LabelFault::Disk), 1),
        (1, Err(LabelFault::Disk), 1),
        (2, Ok(2), 2),
    ] {
        holds(&rt, boot_within(&rt, rt.alloc(), reads) == (answer, left));
    }
}
