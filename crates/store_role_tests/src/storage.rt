// The storage site at site 1, which stores group 0 alone and is its synchronization site, for its tests.
ghost use Rattle.std.specs.Prelude.{◌≡◌};
ghost use Rattle.disk_model.specs.ScriptDisk.{moment};
ghost use Rattle.site_packs.specs.Packs.{Stand};

use crate::checks::given;
use dir_reconcile::KeptVectors;
use disk_model::{Disk, ScriptDisk};
use locus_ids::sizes::PAGE_BYTES;
use locus_ids::{FileId, ItemList, Kind, Mode, Serial, Sites, Stamp, Stamps};
use operation_effects::MendingWork;
use role_shown::{bytes, config, frame, inst, shown, site, stamp, vector};
use site_disk::SiteDisk;
use site_frame::SiteFrame;
use site_packs::{LaidPages, NewVersion, SitePacks};
use std::alloc::Global;
use std::process::Abort;
use storage_site::{LookRequest, Store};
use store_instances::{HeldRead, StoreRequest};
use trace_book::{Op, What};
use version_vector::Vector;
use wire_messages::{Outbox, PageNumbers};

/// The storage site at work. Each call gives what it sends and tells.
pub struct Storage {
    pub store: Store,
    pub packs: SitePacks,
    pub disk: ScriptDisk,
    pub frame: SiteFrame,
    pub alloc: Global,
}

// Taken apart in one place: where one is dropped, the prover sees one call.
impl Drop for Storage {
    fn drop(self) {
        let Storage {
            store: _,
            packs: _,
            disk: _,
            frame: _,
            alloc: _,
        } = self;
    }
}

/// The length of the disk. It has no contract, so that no proof spells out so many zeros.
fn length() -> u32 {
    5_310_464
}

fn no_mending(alloc: Global) -> MendingWork {
    MendingWork {
        contents: ItemList::new(alloc),
        kept: KeptVectors::new(alloc),
    }
}

/// Makes the disk that of site 1.
fn formatted<R: Abort + Eprint>(rt: &R, alloc: Global, disk: &mut ScriptDisk) -> SitePacks
    ensures { Stand result (moment disk.new) }
{
    let config = given(rt, config(alloc));
    let site = given(rt, site(1));
    assert!(rt; disk.len() >= SiteDisk::length(&config, site));
    SiteDisk::format(alloc, disk, &config, site).expect(rt, "a fault")
}

impl Storage {
    pub fn new<R: Abort + Eprint>(rt: &R, alloc: Global) -> Storage
        ensures { Stand result.packs (moment result.disk) }
    {
        let mut disk = ScriptDisk::new(alloc, length()).expect(rt, "no memory");
        let packs = formatted(rt, alloc, &mut disk);
        Storage {
            store: Store::new(alloc),
            packs,
            disk,
            frame: given(rt, frame(alloc, 1)),
            alloc,
        }
    }

    /// The copy of a file, as another site has made it.
    pub fn adopts<R: Abort>(&mut self, rt: &R, ino: u16, content: &[u8])
        requires { Stand self.old.packs (moment self.old.disk) }
        ensures { Stand self.new.packs (moment self.new.disk) }
    {
        let file = FileId { group: 0, ino };
        let numbers = all_pages(rt, self.alloc, content);
        let came = LaidPages {
            size: u32::try_from(content.len())
                .ok()
                .expect(rt, "a long content"),
            numbers: numbers.as_slice(),
            bytes: content,
        };
        self.packs
            .adopt(&mut self.disk, file, &first_version(), &came)
            .expect(rt, "not adopted");
    }

    /// Site `us` opens a file as the instance of this serial.
    pub fn opens<R: Abort + Eprint>(
        &mut self,
        rt: &R,
        who: (u8, u32),
        ino: u16,
        mode: Mode,
    ) -> String
        requires { Stand self.old.packs (moment self.old.disk) }
        ensures { Stand self.new.packs (moment self.new.disk) }
    {
        let (us, serial) = who;
        let asked = request(rt, self.alloc, inst(us, serial), ino, mode);
        let mut out = Outbox::new(self.alloc);
        self.store
            .on_open_ss(&self.frame, &self.packs, &mut self.disk, asked, &mut out)
            .expect(rt, "a fault");
        given(rt, shown(self.alloc, &out))
    }

    /// A read of the first nine bytes, whose asker has them.
    pub fn reads_held<R: Abort + Eprint>(&mut self, rt: &R, serial: u32, n: u32) -> String
        ensures packs { self.new.packs ≡ self.old.packs }
        ensures disk { self.new.disk ≡ self.old.disk }
    {
        let mut out = Outbox::new(self.alloc);
        let read = HeldRead {
            number: n,
            at: 0,
            len: 9,
        };
        self.store
            .on_read_held(&self.frame, &self.packs, inst(2, serial), read, &mut out)
            .expect(rt, "no memory");
        given(rt, shown(self.alloc, &out))
    }

    pub fn does<R: Abort + Eprint>(&mut self, rt: &R, serial: u32, n: u32, op: Op) -> String
        requires { Stand self.old.packs (moment self.old.disk) }
        ensures { Stand self.new.packs (moment self.new.disk) }
    {
        let mut out = Outbox::new(self.alloc);
        let mending = no_mending(self.alloc);
        let inst = inst(2, serial);
        let seen = Vector::zero();
        self.store
            .on_op(
                &self.frame,
                &mut self.packs,
                &mut self.disk,
                inst,
                n,
                &op,
                &seen,
                &mending,
                &mut out,
            )
            .expect(rt, "a fault");
        drop(op);
        given(rt, shown(self.alloc, &out))
    }

    pub fn writes<R: Abort + Eprint>(&mut self, rt: &R, serial: u32, n: u32, at: u32) -> String
        requires { Stand self.old.packs (moment self.old.disk) }
        ensures { Stand self.new.packs (moment self.new.disk) }
    {
        let bytes = given(rt, bytes(self.alloc, "a"));
        self.does(rt, serial, n, Op::Write { at, bytes })
    }

    pub fn closes<R: Abort + Eprint>(&mut self, rt: &R, serial: u32) -> String
        requires { Stand self.old.packs (moment self.old.disk) }
        ensures { Stand self.new.packs (moment self.new.disk) }
    {
        let mut out = Outbox::new(self.alloc);
        let inst = inst(2, serial);
        self.store
            .on_close(&self.frame, &mut self.packs, &mut self.disk, inst, &mut out)
            .expect(rt, "a fault");
        given(rt, shown(self.alloc, &out))
    }

    pub fn closed<R: Abort + Eprint>(&mut self, rt: &R, serial: u32) -> String
        ensures packs { self.new.packs ≡ self.old.packs }
        ensures disk { self.new.disk ≡ self.old.disk }
    {
        let mut out = Outbox::new(self.alloc);
        self.store
            .on_closed_ok(&self.frame, inst(2, serial), &mut out)
            .expect(rt, "no memory");
        given(rt, shown(self.alloc, &out))
    }

    pub fn looks<R: Abort + Eprint>(&mut self, rt: &R, ino: u16, what: What, serve: Stamp) -> String
        requires { Stand self.old.packs (moment self.old.disk) }
        ensures { Stand self.new.packs (moment self.new.disk) }
    {
        let mut out = Outbox::new(self.alloc);
        let look = LookRequest {
            call: 4,
            process: 1,
            request: 1,
            take: 1,
            file: FileId { group: 0, ino },
            what,
        };
        let us = given(rt, site(3));
        self.store
            .on_look_ss(
                &self.frame,
                &self.packs,
                &mut self.disk,
                us,
                &look,
                serve,
                &mut out,
            )
            .expect(rt, "a fault");
        given(rt, shown(self.alloc, &out))
    }

    pub fn pulled<R: Abort + Eprint>(
        &mut self,
        rt: &R,
        ino: u16,
        version: Stamp,
        page: u8,
    ) -> String
        requires { Stand self.old.packs (moment self.old.disk) }
        ensures { Stand self.new.packs (moment self.new.disk) }
    {
        let mut out = Outbox::new(self.alloc);
        let file = FileId { group: 0, ino };
        let from = given(rt, site(3));
        self.store
            .on_pull(
                &self.frame,
                &self.packs,
                &mut self.disk,
                from,
                file,
                version,
                page,
                &mut out,
            )
            .expect(rt, "a fault");
        given(rt, shown(self.alloc, &out))
    }

    /// Site 3 asks which pages to pull of a version over its own one.
    pub fn wanted<R: Abort + Eprint>(
        &self,
        rt: &R,
        ino: u16,
        version: Stamp,
        own: Stamp,
    ) -> String {
        let mut out = Outbox::new(self.alloc);
        let file = FileId { group: 0, ino };
        let from = given(rt, site(3));
        self.store
            .on_want(&self.frame, &self.packs, from, file, version, own, &mut out)
            .expect(rt, "a fault");
        given(rt, shown(self.alloc, &out))
    }

    pub fn ticks<R: Abort + Eprint>(&self, rt: &R) -> String {
        let mut out = Outbox::new(self.alloc);
        self.store
            .repeats(&self.frame, &mut out)
            .expect(rt, "no memory");
        given(rt, shown(self.alloc, &out))
    }

    pub fn reports<R: Abort + Eprint>(&self, rt: &R) -> String {
        let mut out = Outbox::new(self.alloc);
        self.store
            .report(&self.frame, &self.packs, 0, &mut out)
            .expect(rt, "no memory");
        given(rt, shown(self.alloc, &out))
    }
}

/// The version 3.1.
fn first_version() -> NewVersion {
    NewVersion {
        kind: Kind::File,
        set: Sites(0b111),
        stamp: stamp(3, 1),
        vector: vector(0, 0, 1),
    }
}

/// What the synchronization site asks of an open: it begins from version 3.1 of the file, and a file that is made has none.
pub fn request<R: Abort>(
    rt: &R,
    alloc: Global,
    inst: Serial,
    ino: u16,
    mode: Mode,
) -> StoreRequest {
    let mut parents = Stamps::new(alloc);
    if ino != 0 {
        parents.push(stamp(3, 1)).expect(rt, "no memory");
    }
    StoreRequest {
        inst,
        file: FileId { group: 0, ino },
        mode,
        set: Sites(0b111),
        kind: Kind::File,
        base: stamp(3, 1),
        vector: vector(0, 0, 1),
        parents,
    }
}

/// The numbers of all pages of a content.
fn all_pages<R: Abort>(rt: &R, alloc: Global, content: &[u8]) -> PageNumbers {
    let mut numbers = PageNumbers::new(alloc);
    for page in 0..content.len().div_ceil(PAGE_BYTES) {
        let number = u16::try_from(page).ok().expect(rt, "a long content");
        numbers.push(number).expect(rt, "no memory");
    }
    numbers
}
