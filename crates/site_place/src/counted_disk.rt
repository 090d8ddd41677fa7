// The disk of a site, which counts how many calls of its armed script are left.
ghost use Rattle.std.specs.Prelude.{◌≡◌, ◌≤◌, ◌+◌, ◌-◌, ℕ, [], length, replicate, refl, OnOk, OnErr, IfOk};
ghost use Rattle.disk_model.specs.Disk.{Goes, IsSettled, HasCause, Tells, TellsRead, KeepsCut, CutsWrite, CutsSync};
ghost use Rattle.disk_model.specs.Images.{overwritten, bytes_at, Torn, Same};
ghost use Rattle.disk_model.specs.Script.{how_of};
ghost use Rattle.site_disk.specs.Run.{as_cut};
ghost use Rattle.site_place.specs.Places.{cut_by};
ghost use Rattle.disk_model.specs.declared.script.Armed.TheVariants as armed;
ghost use Rattle.site_place.specs.Counts.{counted, armed_disk, waiting};

use crate::CallCut;
use crate::script::disk_leave;
use disk_model::{Disk, DiskFault, Leave, ScriptDisk};
use locus_ids::NoMemory;
use std::alloc::Global;

/// A disk, and how many calls still pass of a script that is armed.
#[derive(Drop)]
pub(crate) struct CountedDisk {
    disk: ScriptDisk,
    left: u32,
    ghost counts: { counted disk.script left ≡ left },
}

impl CountedDisk {
    ghost use Rattle.disk_model.specs.ScriptDisk.{seen, moment, cut_image, SameBytes};

    /// A disk of zeros, with nothing armed.
    pub(crate) fn new(alloc: Global, length: u32) -> Result<CountedDisk, NoMemory>
        ensures read { IfOk result (λ made. seen made.disk ≡ replicate length 0) }
        ensures script { IfOk result (λ made. made.disk.script ≡ waiting armed.Nothing 0) }
    {
        let disk = ScriptDisk::new(alloc, length)?;
        Ok(CountedDisk { disk, left: 0 })
    }

    /// How many calls of the armed script still pass.
    pub(crate) fn left(&self) -> u32
        ensures { result ≡ self.now.left }
    {
        self.left
    }

    /// So many calls pass, and the next one is cut off. This takes the place of what was armed before.
    pub(crate) fn arm(&mut self, calls: u32, how: CallCut)
        ensures bytes { SameBytes self.old.disk self.new.disk }
        ensures script { self.new.disk.script ≡ record self.old.disk.script { writes = armed_disk calls how } }
        ensures left { self.new.left ≡ calls }
    {
        match how {
            CallCut::Stops { leave } => self.disk.arm_stop(calls, disk_leave(leave)),
            CallCut::Fails => self.disk.arm_fail(calls),
        }
        self.left = calls;
    }

    /// The site has stopped in a call that was cut off so: the ranges that aren't synced are as it leaves them. Nothing is armed any
    /// more.
    pub(crate) fn crash(&mut self, how: CallCut)
        ensures left { how_of self.old.disk.script ≡ as_cut (cut_by how) → seen self.new.disk ≡ cut_image self.old.disk }
        ensures settled { IsSettled (moment self.new.disk) }
        ensures script { self.new.disk.script ≡ waiting armed.Nothing self.old.disk.script.faults }
    {
        match how {
            CallCut::Stops { leave } => self.disk.crash(disk_leave(leave)),
            CallCut::Fails => self.disk.crash(Leave::New),
        }
    }

    /// What a read gives is durable, and nothing is armed any more.
    pub(crate) fn disarm(&mut self)
        ensures seen { seen self.new.disk ≡ seen self.old.disk }
        ensures settled { IsSettled (moment self.new.disk) }
        ensures script { self.new.disk.script ≡ waiting armed.Nothing self.old.disk.script.faults }
    {
        self.disk.crash(Leave::New);
    }
}

impl Disk for CountedDisk {
    ghost use Rattle.disk_model.specs.ScriptDisk.{seen as seen_of, moment, images};
    ghost use Rattle.disk_model.specs.ScriptLaws.{leaves_one};

    ghost moment = { λ d. moment d.disk };

    ghost reads_an_image = { λ d. record { long = refl; outside = λ k none. refl } };

    ghost leaves_an_image = { λ d. leaves_one d.disk };

    ghost keeps_length = { λ d image is. is.long };

    ghost counts_now = { λ d t image earlier is. is };

    ghost only_now = { λ d image is. is };

    fn len(&self) -> u32 {
        self.disk.len()
    }

    fn read(&mut self, at: u32, buf: &mut [u8]) -> Result<(), DiskFault> {
        self.disk.read(at, buf)
    }

    #[inline(always)]
    fn write_at(&mut self, at: u32, bytes: &[u8]) -> Result<(), DiskFault> {
        let answer = self.disk.write_at(at, bytes);
        self.left = self.left.saturating_sub(1);
        answer
    }

    #[inline(always)]
    fn sync(&mut self) -> Result<(), DiskFault> {
        let answer = self.disk.sync();
        self.left = self.left.saturating_sub(1);
        answer
    }
}
