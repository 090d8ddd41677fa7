// site_tables: which tables a site starts, what they take, and what they know of kept versions.
use crate::checks::is_same;
use crate::made::{copy, frame, reports, shown, site};
use css_core::Css;
use keyed_tables::SortedTable;
use locus_ids::{FileId, Kind, Stamp};
use site_frame::SiteFrame;
use site_tables::{kept_vectors, notes_own, repeat_notices, stamps_kept, start_tables, take};
use std::alloc::Global;
use std::process::Abort;
use wire_messages::{Body, Outbox, ReportedCopy};

/// The groups of the tables, each with the number of its files.
fn groups<R: Abort>(rt: &R, alloc: Global, tables: &[Css]) -> String {
    let mut text = String::new(alloc);
    for table in tables {
        let (group, files) = (table.group(), table.files().len());
        write!(text, "{group} of {files},").expect(rt, "no memory");
    }
    text
}

/// A site has a table of each group of which it is the first member with a pack, and none that stood before.
#[test]
fn new_tables_stand_in_place_of_all_others(rt: HostRuntime) {
    let alloc = rt.alloc();
    let mut tables = SortedTable::new(alloc);
    for (me, one, two, three, wanted) in [
        (1, 1, 1, 1, "0 of 0,1 of 0,"),
        (3, 1, 1, 1, ""),
        (2, 0, 1, 1, "0 of 0,1 of 0,2 of 0,"),
        (2, 1, 1, 1, "2 of 0,"),
        (3, 0, 0, 1, "0 of 0,"),
        (3, 0, 0, 1, "0 of 0,"),
        (1, 0, 1, 1, ""),
    ] {
        let frame = frame(&rt, alloc, me, [one, two, three]);
        start_tables(alloc, &mut tables, &frame).expect(&rt, "no memory");
        is_same(&rt, &groups(&rt, alloc, tables.as_slice()), wanted);
        let known = [copy(2, Kind::File, 1, 1, 0)];
        reports(&rt, &mut tables, &frame, (3, 0), &known);
    }
}

/// The kept vectors of a group that knows of file 2 a version by one commit of site 1, and another copy, each with its inode; `-`
/// where a number is no inode's.
fn kept<R: Abort>(rt: &R, alloc: Global, other: ReportedCopy) -> String {
    let mut table = Css::new(alloc, 0);
    let frame = frame(rt, alloc, 1, [1, 1, 1]);
    let copies = [copy(2, Kind::File, 1, 1, 0), other];
    table
        .on_report(&frame, site(rt, 1), &copies, &mut Outbox::new(alloc))
        .expect(rt, "no memory");
    let vectors = kept_vectors(alloc, &table).expect(rt, "no memory");
    let mut text = String::new(alloc);
    match &vectors {
        Some(vectors) => {
            for kept in vectors.as_slice() {
                let (ino, parts) = (kept.ino.get(), kept.vector.parts());
                let (one, two) = (parts[0], parts[1]);
                write!(text, "{ino} {one}.{two},").expect(rt, "no memory");
            }
        }
        None => text.push_str("-").expect(rt, "no memory"),
    }
    text
}

#[test]
fn kept_vectors_are_those_of_all_files(rt: HostRuntime) {
    for (ino, one, two, wanted) in [
        (2, 0, 1, "2 1.0,2 0.1,"),
        (2, 1, 1, "2 1.1,"),
        (2, 0, 0, "2 1.0,"),
        (1, 0, 0, "1 0.0,2 1.0,"),
        (1_024, 0, 1, "2 1.0,1024 0.1,"),
        (0, 0, 1, "-"),
        (1_025, 0, 1, "-"),
    ] {
        let other = copy(ino, Kind::File, 2, one, two);
        is_same(&rt, &kept(&rt, rt.alloc(), other), wanted);
    }
}

/// What the table of group 0 tells as site 2 says that it has a version, and site 3 is noted to have it; and how many are kept.
fn told<R: Abort>(
    rt: &R,
    tables: &mut SortedTable<Css>,
    frame: &SiteFrame,
    file: FileId,
    by: u8,
) -> String {
    let (alloc, stamp) = (tables.allocator(), Stamp { site: by, n: 1 });
    let (have, mut out) = (Body::Have { file, stamp }, Outbox::new(alloc));
    take(tables, frame, site(rt, 2), have, &mut out).expect(rt, "not taken");
    notes_own(tables, site(rt, 3), file, stamp).expect(rt, "no memory");
    repeat_notices(tables.as_slice(), frame, &mut out).expect(rt, "no memory");
    let kept = stamps_kept(alloc, tables, file)
        .expect(rt, "no memory")
        .len();
    let mut text = shown(rt, alloc, &out);
    write!(text, "{kept}").expect(rt, "no memory");
    text
}

/// Version 1.1 of file 2 is brought by site 1. Group 2 has no table here.
#[test]
fn what_comes_is_taken_by_the_table_of_its_group(rt: HostRuntime) {
    let alloc = rt.alloc();
    let frame = frame(&rt, alloc, 1, [1, 1, 1]);
    let mut tables = SortedTable::new(alloc);
    start_tables(alloc, &mut tables, &frame).expect(&rt, "no memory");
    for (from, group, wanted) in [
        (2, 2, ""),
        (1, 0, "1;"),
        (2, 0, "2;"),
        (3, 0, "3;2;3;0 start e1.1.1 0 2=1.1\n"),
    ] {
        let brought = [copy(2, Kind::File, 1, 1, 0)];
        let copies = if from == 1 { &brought[..] } else { &[] };
        let sent = reports(&rt, &mut tables, &frame, (from, group), copies);
        is_same(&rt, &sent, wanted);
    }
    for (group, ino, by, wanted) in [
        (2, 2, 1, "2;3;0"),
        (0, 3, 1, "2;3;0"),
        (0, 2, 2, "2;3;1"),
        (0, 2, 1, "1"),
    ] {
        let file = FileId { group, ino };
        is_same(&rt, &told(&rt, &mut tables, &frame, file, by), wanted);
    }
}
