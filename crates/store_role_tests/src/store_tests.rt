// storage_site: instances of file 2 at site 1, which site 2 has open.
ghost use Rattle.disk_model.specs.ScriptDisk.{moment};
ghost use Rattle.site_packs.specs.Packs.{Stand};

use crate::checks::{given, holds, is_same};
use crate::storage::{Storage, request};
use locus_ids::{Bytes, Mode};
use role_shown::{FILE, bytes, inst, stamp};
use std::alloc::Global;
use std::process::Abort;
use store_instances::StoreFault;
use trace_book::{Op, What};
use wire_messages::Outbox;

/// Site 2 has file 2, whose version 3.1 is `old`, open to write, as instance 2.1.
fn written<R: Abort + Eprint>(rt: &R, alloc: Global) -> Storage
    ensures { Stand result.packs (moment result.disk) }
{
    let mut storage = Storage::new(rt, alloc);
    storage.adopts(rt, 2, b"old");
    storage.opens(rt, (2, 1), 2, Mode::Write);
    storage
}

#[test]
fn an_operation_is_done_once_and_answered_again(rt: HostRuntime) {
    let mut storage = written(&rt, rt.alloc());
    is_same(
        &rt,
        &storage.writes(&rt, 1, 1, 0),
        "2 opdone 1 1 ok; act e1.1.1 i2.1 1 write 0 61 ok",
    );
    is_same(&rt, &storage.writes(&rt, 1, 1, 0), "2 opdone 1 1 ok");
    is_same(&rt, &storage.writes(&rt, 1, 1, 0), "2 opdone 1 1 ok");
    is_same(
        &rt,
        &storage.closes(&rt, 1),
        "1 closed 2.1 1.1; commit 0.2 1 1.1 3.1 616c64",
    );
    is_same(&rt, &storage.writes(&rt, 1, 1, 0), "");
}

#[test]
fn a_close_commits_and_is_answered_as_far_as_it_came(rt: HostRuntime) {
    let mut storage = written(&rt, rt.alloc());
    storage.writes(&rt, 1, 1, 0);
    is_same(
        &rt,
        &storage.closes(&rt, 1),
        "1 closed 2.1 1.1; commit 0.2 1 1.1 3.1 616c64",
    );
    is_same(&rt, &storage.closes(&rt, 1), "1 closed 2.1 1.1");
    is_same(&rt, &storage.ticks(&rt), "1 closed 2.1 1.1");
    is_same(&rt, &storage.closed(&rt, 1), "2 closedone 1 ok 1.1");
    is_same(&rt, &storage.closed(&rt, 1), "");
    is_same(&rt, &storage.closes(&rt, 1), "2 closedone 1 ok 1.1");
    is_same(&rt, &storage.ticks(&rt), "");
}

#[test]
fn a_commit_raises_the_counter_of_the_site(rt: HostRuntime) {
    let mut storage = written(&rt, rt.alloc());
    is_same(
        &rt,
        &storage.does(&rt, 1, 1, Op::Commit),
        "2 opdone 1 1 ok 3.1; act e1.1.1 i2.1 1 commit ok 3.1",
    );
    storage.writes(&rt, 1, 2, 0);
    is_same(
        &rt,
        &storage.does(&rt, 1, 3, Op::Commit),
        "2 opdone 1 3 ok 1.1; commit 0.2 1 1.1 3.1 616c64; act e1.1.1 i2.1 3 commit ok 1.1",
    );
    storage.writes(&rt, 1, 4, 1);
    is_same(
        &rt,
        &storage.does(&rt, 1, 5, Op::Abort),
        "2 opdone 1 5 ok; act e1.1.1 i2.1 5 abort ok",
    );
    let read = Op::Read { at: 0, len: 9 };
    is_same(
        &rt,
        &storage.does(&rt, 1, 6, read),
        "2 opdone 1 6 ok 616c64; act e1.1.1 i2.1 6 read 0 9 ok 616c64",
    );
    is_same(&rt, &storage.closes(&rt, 1), "1 closed 2.1 1.1");
}

#[test]
fn a_read_is_answered_by_the_number_of_its_bytes_where_they_are_held(rt: HostRuntime) {
    let mut storage = Storage::new(&rt, rt.alloc());
    storage.adopts(&rt, 2, b"old");
    storage.opens(&rt, (2, 1), 2, Mode::Read);
    is_same(
        &rt,
        &storage.reads_held(&rt, 1, 1),
        "2 asheld 1 1 3; act e1.1.1 i2.1 1 read 0 9 ok 6f6c64",
    );
    is_same(&rt, &storage.reads_held(&rt, 1, 1), "2 asheld 1 1 3");
    let read = Op::Read { at: 0, len: 9 };
    is_same(
        &rt,
        &storage.does(&rt, 1, 1, read),
        "2 opdone 1 1 ok 6f6c64",
    );
    is_same(&rt, &storage.reads_held(&rt, 1, 3), "");
    is_same(&rt, &storage.reads_held(&rt, 4, 1), "");
}

/// An instance that may write is not of one version: it is answered in full.
#[test]
fn a_writer_is_answered_in_full(rt: HostRuntime) {
    let mut storage = written(&rt, rt.alloc());
    is_same(
        &rt,
        &storage.reads_held(&rt, 1, 1),
        "2 opdone 1 1 ok 6f6c64; act e1.1.1 i2.1 1 read 0 9 ok 6f6c64",
    );
}

#[test]
fn a_make_takes_the_least_number_that_is_free(rt: HostRuntime) {
    let mut storage = written(&rt, rt.alloc());
    is_same(
        &rt,
        &storage.opens(&rt, (2, 2), 0, Mode::Make),
        "1 opened 2.2 3 of 0",
    );
    is_same(
        &rt,
        &storage.opens(&rt, (3, 1), 0, Mode::Make),
        "1 opened 3.1 4 of 0",
    );
    is_same(
        &rt,
        &storage.closes(&rt, 2),
        "1 closed 2.2 1.1; commit 0.3 1 1.1 - -",
    );
    holds(&rt, storage.store.instance_group(inst(2, 2)) == Some(0));
    holds(&rt, storage.store.instance_group(inst(2, 3)) == None);
    is_same(&rt, &storage.reports(&rt), "1 report 0 of 3");
}

#[test]
fn what_is_late_or_unknown_is_ignored(rt: HostRuntime) {
    let mut storage = written(&rt, rt.alloc());
    is_same(
        &rt,
        &storage.opens(&rt, (2, 1), 2, Mode::Write),
        "1 opened 2.1 2 of 3",
    );
    is_same(&rt, &storage.writes(&rt, 7, 1, 0), "");
    is_same(&rt, &storage.writes(&rt, 1, 2, 0), "");
    storage.writes(&rt, 1, 1, 0);
    is_same(&rt, &storage.writes(&rt, 1, 0, 0), "");
    is_same(&rt, &storage.closes(&rt, 7), "");
    is_same(&rt, &storage.closed(&rt, 7), "");
    is_same(&rt, &storage.closed(&rt, 1), "");
    // The removal of what isn't there, and an open of a site that is none.
    let name = given(&rt, bytes(storage.alloc, "x"));
    is_same(
        &rt,
        &storage.does(&rt, 1, 2, Op::Remove { name, ino: 9 }),
        "",
    );
    let asked = request(&rt, storage.alloc, inst(0, 1), 2, Mode::Read);
    let mut out = Outbox::new(storage.alloc);
    let fault = storage.store.on_open_ss(
        &storage.frame,
        &storage.packs,
        &mut storage.disk,
        asked,
        &mut out,
    );
    holds(&rt, fault == Err(StoreFault::Unfit));
}

#[test]
fn looks_and_pulls_are_of_one_version(rt: HostRuntime) {
    let mut storage = Storage::new(&rt, rt.alloc());
    storage.adopts(&rt, 2, &[7; 1_536]);
    is_same(
        &rt,
        &storage.looks(&rt, 2, What::Stat, stamp(3, 1)),
        "3 lookdone 4.1.1 content of 1536",
    );
    is_same(
        &rt,
        &storage.looks(&rt, 2, What::Stat, stamp(3, 2)),
        "3 lookdone 4.1.1 moved",
    );
    is_same(
        &rt,
        &storage.looks(&rt, 9, What::List, stamp(3, 1)),
        "3 lookdone 4.1.1 moved",
    );
    let component = given(&rt, bytes(storage.alloc, "a"));
    is_same(
        &rt,
        &storage.looks(&rt, 1, What::Name { component }, stamp(0, 0)),
        "3 lookdone 4.1.1 absent a",
    );
    is_same(
        &rt,
        &storage.pulled(&rt, 2, stamp(3, 1), 0),
        "3 page 0 of 1024 0.2 3.1",
    );
    is_same(
        &rt,
        &storage.pulled(&rt, 2, stamp(3, 1), 1),
        "3 page 1 of 512 0.2 3.1",
    );
    is_same(&rt, &storage.pulled(&rt, 2, stamp(3, 1), 2), "");
    is_same(&rt, &storage.pulled(&rt, 2, stamp(1, 1), 0), "");
    is_same(&rt, &storage.pulled(&rt, 9, stamp(3, 1), 0), "");
}

/// A delta names the pages that were written since, by one commit and by two. Over a version from which no step leads here all pages are
/// new; a version that isn't the copy is none to ask for.
#[test]
fn a_delta_names_the_pages_that_were_written_since(rt: HostRuntime) {
    let mut storage = Storage::new(&rt, rt.alloc());
    storage.adopts(&rt, 2, &[7; 2_049]);
    storage.opens(&rt, (2, 1), 2, Mode::Write);
    storage.writes(&rt, 1, 1, 0);
    storage.does(&rt, 1, 2, Op::Commit);
    storage.writes(&rt, 1, 3, 1_024);
    storage.does(&rt, 1, 4, Op::Commit);
    let (first, second, adopted) = (stamp(1, 1), stamp(1, 2), stamp(3, 1));
    is_same(
        &rt,
        &storage.wanted(&rt, 2, second, first),
        "3 delta 0.2 1.2 1",
    );
    is_same(
        &rt,
        &storage.wanted(&rt, 2, second, adopted),
        "3 delta 0.2 1.2 0 1",
    );
    is_same(
        &rt,
        &storage.wanted(&rt, 2, second, stamp(7, 7)),
        "3 delta 0.2 1.2 0 1 2",
    );
    is_same(&rt, &storage.wanted(&rt, 2, first, adopted), "");
    is_same(&rt, &storage.wanted(&rt, 9, second, adopted), "");
    storage.store.leave();
    is_same(
        &rt,
        &storage.wanted(&rt, 2, second, first),
        "3 delta 0.2 1.2 0 1 2",
    );
}

#[test]
fn a_left_epoch_has_no_instances(rt: HostRuntime) {
    let mut storage = written(&rt, rt.alloc());
    storage.writes(&rt, 1, 1, 0);
    holds(&rt, storage.store.has_open(FILE));
    holds(&rt, storage.store.free_pages(&storage.packs, 0) == 3_070);
    storage.store.leave();
    holds(&rt, !storage.store.has_open(FILE));
    holds(&rt, storage.store.free_pages(&storage.packs, 0) == 3_071);
    is_same(&rt, &storage.writes(&rt, 1, 2, 0), "");
}

/// The pack has copies of 3,071 pages: 47 files of 64 pages, and one of 63.
fn nearly_full<R: Abort + Eprint>(rt: &R, alloc: Global) -> Storage
    ensures { Stand result.packs (moment result.disk) }
{
    let mut storage = Storage::new(rt, alloc);
    let content = pages(rt, alloc);
    for ino in 2..49 {
        storage.adopts(rt, ino, content.as_slice());
    }
    let last = content.as_slice().get(1_024..).unwrap_or(&[]);
    storage.adopts(rt, 49, last);
    storage
}

/// 64 pages of bytes.
fn pages<R: Abort>(rt: &R, alloc: Global) -> Bytes {
    let mut content = Bytes::new(alloc);
    for _ in 0..64 {
        content.append(&[7; 1_024]).expect(rt, "no memory");
    }
    content
}

#[test]
fn a_changed_page_needs_room_until_its_instance_aborts(rt: HostRuntime) {
    let mut storage = nearly_full(&rt, rt.alloc());
    holds(&rt, storage.store.free_pages(&storage.packs, 0) == 1);
    storage.opens(&rt, (2, 1), 2, Mode::Write);
    storage.opens(&rt, (2, 2), 3, Mode::Write);
    is_same(
        &rt,
        &storage.writes(&rt, 1, 1, 0),
        "2 opdone 1 1 ok; act e1.1.1 i2.1 1 write 0 61 ok",
    );
    is_same(
        &rt,
        &storage.writes(&rt, 2, 1, 0),
        "2 opdone 2 1 nospace 1 0; act e1.1.1 i2.2 1 write 0 61 nospace 1 0",
    );
    is_same(
        &rt,
        &storage.does(&rt, 1, 2, Op::Abort),
        "2 opdone 1 2 ok; act e1.1.1 i2.1 2 abort ok",
    );
    is_same(
        &rt,
        &storage.writes(&rt, 2, 2, 0),
        "2 opdone 2 2 ok; act e1.1.1 i2.2 2 write 0 61 ok",
    );
}
