// site_mends: which mends site 1 starts by itself.
ghost use Rattle.disk_model.specs.ScriptDisk.{moment};
ghost use Rattle.site_packs.specs.Packs.{Stand};

use crate::checks::{holds, is_same};
use crate::made::{copy, frame, reports, shown};
use css_core::Css;
use disk_model::{Disk, ScriptDisk};
use keyed_tables::SortedTable;
use locus_ids::{Bytes, FileId, Kind, Refusal, Stamps};
use site_disk::SiteDisk;
use site_frame::SiteFrame;
use site_mends::{MendFault, start_mends};
use site_packs::{LaidPages, NewVersion, SitePacks};
use site_tables::start_tables;
use std::alloc::Global;
use std::process::Abort;
use using_site::UsingSite;
use wire_messages::{Granted, Outbox, ReportedCopy};

const MEND: &str = "1;0 call 1 0 c1.1.1 mend 0.3\n";

/// Site 1 with its disk, its tables and its own calls.
struct Mending {
    tables: SortedTable<Css>,
    frame: SiteFrame,
    packs: SitePacks,
    users: UsingSite,
    disk: ScriptDisk,
}

// Taken apart in one place: where one is dropped, the prover sees one call.
impl Drop for Mending {
    fn drop(self) {
        let Mending {
            tables: _,
            frame: _,
            packs: _,
            users: _,
            disk: _,
        } = self;
    }
}

/// The length of a disk with two packs. It has no contract, so that no proof spells out so many zeros.
fn length() -> u32 {
    10_619_904
}

impl Mending {
    fn new<R: Abort>(rt: &R, alloc: Global) -> Mending
        ensures { Stand result.packs (moment result.disk) }
    {
        let frame = frame(rt, alloc, 1, [1, 1, 1]);
        let mut tables = SortedTable::new(alloc);
        start_tables(alloc, &mut tables, &frame).expect(rt, "no memory");
        let mut disk = ScriptDisk::new(alloc, length()).expect(rt, "no memory");
        assert!(rt; disk.len() >= SiteDisk::length(&frame.config, frame.me));
        let packs = SiteDisk::format(alloc, &mut disk, &frame.config, frame.me).expect(
            rt, "a fault",
        );
        Mending {
            tables,
            frame,
            packs,
            users: UsingSite::new(alloc),
            disk,
        }
    }

    /// The site holds this version, with this content.
    fn holds<R: Abort>(&mut self, rt: &R, copy: &ReportedCopy, content: &Bytes)
        requires { Stand self.old.packs (moment self.old.disk) }
        ensures { Stand self.new.packs (moment self.new.disk) }
    {
        let file = FileId {
            group: 0,
            ino: copy.ino,
        };
        let version = NewVersion {
            kind: copy.kind,
            set: copy.set,
            stamp: copy.stamp,
            vector: copy.vector,
        };
        let came = LaidPages {
            size: u32::try_from(content.len())
                .ok()
                .expect(rt, "a long content"),
            numbers: first_page(content.as_slice()),
            bytes: content.as_slice(),
        };
        self.packs
            .adopt(&mut self.disk, file, &version, &came)
            .expect(rt, "not adopted");
    }

    /// A site reports these copies of a group.
    fn hears<R: Abort>(&mut self, rt: &R, from: u8, group: u8, copies: &[ReportedCopy])
        requires { Stand self.old.packs (moment self.old.disk) }
        ensures { Stand self.new.packs (moment self.new.disk) }
    {
        reports(rt, &mut self.tables, &self.frame, (from, group), copies);
    }

    /// Its mends start.
    fn starts(&mut self, out: &mut Outbox) -> Result<(), MendFault>
        requires { Stand self.old.packs (moment self.old.disk) }
        ensures { Stand self.new.packs (moment self.new.disk) }
    {
        let (alloc, tables) = (self.tables.allocator(), self.tables.as_slice());
        let (packs, users, disk) = (&self.packs, &mut self.users, &mut self.disk);
        start_mends(alloc, tables, &self.frame, packs, users, disk, out)
    }

    /// What the start of its mends sends and tells.
    fn mends<R: Abort>(&mut self, rt: &R) -> String
        requires { Stand self.old.packs (moment self.old.disk) }
        ensures { Stand self.new.packs (moment self.new.disk) }
    {
        let alloc = self.tables.allocator();
        let mut out = Outbox::new(alloc);
        self.starts(&mut out).expect(rt, "a fault");
        shown(rt, alloc, &out)
    }

    /// The open of its first mend is refused.
    fn refused<R: Abort>(&mut self, rt: &R, why: Refusal)
        requires { Stand self.old.packs (moment self.old.disk) }
        ensures { Stand self.new.packs (moment self.new.disk) }
    {
        let (alloc, answer) = (self.tables.allocator(), Granted::No { why });
        let (kept, mut out) = (Stamps::new(alloc), Outbox::new(alloc));
        self.users
            .on_open_done(&self.frame, kept, 1, answer, &mut out)
            .expect(rt, "no memory");
    }
}

/// Group 0 starts with version 1.1 of inode 3 at site 1 and version 2.1 at site 2, which has a version of file 2 by one commit too.
fn begun<R: Abort>(rt: &R, alloc: Global, kind: Kind, one: u32, two: u32) -> Mending
    ensures { Stand result.packs (moment result.disk) }
{
    let mut site = Mending::new(rt, alloc);
    let of_two = [copy(2, Kind::File, 2, 0, 1), copy(3, kind, 2, one, two)];
    site.hears(rt, 1, 0, &[copy(3, kind, 1, 1, 0)]);
    site.hears(rt, 2, 0, &of_two);
    site.hears(rt, 3, 0, &[]);
    site
}

/// Each group mends its least flagged directory, and no other while that mend waits.
#[test]
fn a_flagged_directory_is_mended(rt: HostRuntime) {
    let mut site = begun(&rt, rt.alloc(), Kind::Dir, 0, 1);
    let of_two = [copy(4, Kind::Dir, 2, 0, 1), copy(5, Kind::Dir, 2, 0, 1)];
    site.hears(&rt, 1, 1, &[copy(5, Kind::Dir, 1, 1, 0)]);
    site.hears(&rt, 2, 1, &of_two);
    let wanted = "1;1;0 call 1 0 c1.1.1 mend 0.3\n0 call 1 0 c1.1.2 mend 1.5\n";
    is_same(&rt, &site.mends(&rt), wanted);
    is_same(&rt, &site.mends(&rt), "");
}

/// File 2 stands under `a` with this count, and its removal saw so many commits of site 2.
fn content<R: Abort>(rt: &R, alloc: Global, count: u8, seen: u8) -> Bytes {
    let entry = [1, b'a', 0, 2, 1, 0, 0, 0, count];
    let mut content = Bytes::from_slice(alloc, &entry).expect(rt, "no memory");
    if count % 2 == 0 {
        let mut vector = [0; 64];
        vector[7] = seen;
        content.append(&vector).expect(rt, "no memory");
    }
    content
}

/// Version 2.1 of inode 3 stands beside version 1.1, above it or below it, and site 1 holds a directory 3 of its own or of site 2.
#[test]
fn else_a_directory_is_mended_to_rescue_a_file(rt: HostRuntime) {
    let alloc = rt.alloc();
    for (kind, one, two, by, count, seen, wanted) in [
        (Kind::Dir, 0, 1, 1, 1, 0, MEND),
        (Kind::File, 0, 1, 1, 1, 0, ""),
        (Kind::Dir, 1, 1, 1, 2, 0, ""),
        (Kind::Dir, 0, 0, 1, 2, 0, MEND),
        (Kind::Dir, 0, 0, 1, 2, 1, ""),
        (Kind::Dir, 0, 0, 1, 1, 0, ""),
        (Kind::Dir, 0, 0, 2, 2, 0, ""),
    ] {
        let mut site = begun(&rt, alloc, kind, one, two);
        let content = content(&rt, alloc, count, seen);
        site.holds(&rt, &copy(3, Kind::Dir, by, 1, 1), &content);
        is_same(&rt, &site.mends(&rt), wanted);
    }
}

/// What starts once the mend of flagged directory 3 was refused so.
fn after_refusal<R: Abort>(rt: &R, alloc: Global, why: Refusal) -> String {
    let mut site = begun(rt, alloc, Kind::Dir, 0, 1);
    site.mends(rt);
    site.refused(rt, why);
    site.mends(rt)
}

#[test]
fn a_mend_that_lacked_room_does_not_start_again(rt: HostRuntime) {
    let alloc = rt.alloc();
    let again = after_refusal(&rt, alloc, Refusal::NoStorage);
    is_same(&rt, &after_refusal(&rt, alloc, Refusal::TooLong), "");
    is_same(&rt, &again, "1;0 call 1 0 c1.1.2 mend 0.3\n");
}

/// Group 2, of which no pack is here, has started without a flag, and group 0 hasn't; then it has, with a file of inode 0.
#[test]
fn nothing_is_mended_of_what_is_not_here(rt: HostRuntime) {
    let (alloc, held) = (rt.alloc(), copy(3, Kind::Dir, 1, 1, 0));
    let content = content(&rt, alloc, 2, 0);
    let mut site = Mending::new(&rt, alloc);
    site.holds(&rt, &held, &content);
    site.tables.put(Css::new(alloc, 2)).expect(&rt, "no memory");
    site.hears(&rt, 2, 2, &[held]);
    site.hears(&rt, 1, 0, &[held]);
    site.hears(&rt, 2, 0, &[copy(2, Kind::File, 2, 0, 1)]);
    is_same(&rt, &site.mends(&rt), "");
    site.hears(&rt, 3, 0, &[copy(0, Kind::File, 3, 0, 0)]);
    let started = site.starts(&mut Outbox::new(alloc));
    holds(&rt, started == Err(MendFault::Unfit));
}

/// The number of the one page of a short content, if it has one.
fn first_page(content: &[u8]) -> &'static [u16] {
    if content.is_empty() { &[] } else { &[0] }
}
