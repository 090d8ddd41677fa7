// A disk in memory that a script stops or makes fail.
ghost use Rattle.std.specs.Prelude.{◌≡◌, ◌≤◌, ◌+◌, ℕ, length, refl, OnOk, OnErr, IfOk};
ghost use Rattle.disk_model.specs.Images.{overwritten, bytes_at, Torn, Same, IsImage};
ghost use Rattle.disk_model.specs.Disk.{Goes, Only, HasCause, Tells, TellsRead, KeepsCut, CutsWrite, CutsSync};
ghost use Rattle.disk_model.specs.Script.{turn_of, read_turn_of, passing_of, outcome, after_write, after_read};

use crate::script::{Armed, Script, Turn};
use crate::store::Store;
use crate::{Disk, DiskFault, Fired, Leave};
use locus_ids::NoMemory;
use std::alloc::Global;

/// A disk in memory, which a script may stop or make fail. It keeps no past moments: what a crash since an earlier
/// moment may have left is what one may leave now. At most 1,024 ranges wait for a sync; before a further write all is
/// made durable.
#[derive(Drop)]
pub struct ScriptDisk {
    store: Store,
    script: Script,
}

impl ScriptDisk {
    ghost use Rattle.disk_model.specs.ScriptDisk.{seen, unsynced, durable, IsNew, SameBytes, Crashed, crashed};

    /// A disk of zeros, all of them durable, with nothing armed. No later call takes memory.
    pub fn new(alloc: Global, len: u32) -> Result<ScriptDisk, NoMemory>
        ensures { IfOk result (λ disk. IsNew disk len) }
    {
        let store = Store::new(alloc, len)?;
        Ok(ScriptDisk {
            store,
            script: Script::new(),
        })
    }

    /// So many writes and syncs pass, and the next one stops. Of what a stopped write was to write it leaves what is
    /// told here. This takes the place of what was armed before.
    pub fn arm_stop(&mut self, calls: u32, leave: Leave)
        ensures bytes { SameBytes self.old self.new }
        ensures armed { self.new.script ≡ record self.old.script { writes = Armed.StopAfter calls leave } }
    {
        self.script.writes = Armed::StopAfter(calls, leave);
    }

    /// So many writes and syncs pass, and the next one fails and does nothing. This takes the place of what was armed
    /// before.
    pub fn arm_fail(&mut self, calls: u32)
        ensures bytes { SameBytes self.old self.new }
        ensures armed { self.new.script ≡ record self.old.script { writes = Armed.FaultAfter calls } }
    {
        self.script.writes = Armed::FaultAfter(calls);
    }

    /// So many reads pass, and the next one fails.
    pub fn fail_read(&mut self, calls: u32)
        ensures bytes { SameBytes self.old self.new }
        ensures armed { self.new.script ≡ record self.old.script { reads = Some calls } }
    {
        self.script.reads = Some(calls);
    }

    /// What the script has done since the last crash. Once it has fired, each call fails.
    pub fn fired(&self) -> Fired
        ensures { result ≡ self.now.script.fired }
    {
        self.script.fired
    }

    /// Ends the script and makes the disk usable again, with each byte of the unsynced ranges as told.
    pub fn crash(&mut self, leave: Leave)
        ensures bytes { Crashed leave self.old self.new }
        ensures image { IsImage (unsynced self.old) (seen self.old) (seen self.new) }
        ensures left { seen self.new ≡ crashed leave (unsynced self.old) (durable self.old) (seen self.old) }
        ensures script { self.new.script ≡ record self.old.script { writes = Armed.Nothing; reads = None; fired = Fired.No } }
    {
        match leave {
            Leave::Old => self.store.revert(),
            Leave::New => self.store.sync(),
            Leave::Byte(byte) => self.store.spoil(byte),
        }
        self.script.writes = Armed::Nothing;
        self.script.reads = None;
        self.script.fired = Fired::No;
    }
}

impl Disk for ScriptDisk {
    ghost use Rattle.disk_model.specs.ScriptDisk.{seen as seen_of, moment, images, SameBytes, Writes, Syncs};
    ghost use Rattle.disk_model.specs.ScriptLaws.{leaves_one};

    ghost moment = { moment };

    ghost reads_an_image = { λ disk. record { long = refl; outside = λ k none. refl } };

    ghost leaves_an_image = { leaves_one };

    ghost keeps_length = { λ disk image is. is.long };

    ghost counts_now = { λ disk t image earlier is. is };

    ghost only_now = { λ disk image is. is };

    fn len(&self) -> u32 {
        self.store.seen.len()
    }

    fn read(&mut self, at: u32, buf: &mut [u8]) -> Result<(), DiskFault>
        requires { at + length buf.old ≤ length (seen_of self.old) }
        ensures bytes { OnOk result (buf.new ≡ bytes_at (seen_of self.old) at (length buf.old)) }
        ensures seen { seen_of self.new ≡ seen_of self.old }
        ensures crash { Goes Same (moment self.old) (moment self.new) }
        ensures cause { HasCause self.old.script.faults self.new.script.faults result }
        ensures tells { TellsRead (passing_of self.old.script) (passing_of self.new.script) result }
        ensures cut { KeepsCut (moment self.old) (moment self.new) }
        ensures same { SameBytes self.old self.new }
        ensures answer { result ≡ outcome (read_turn_of self.old.script) }
        ensures script { self.new.script ≡ after_read self.old.script }
    {
        match self.script.next_read() {
            Turn::Passes => {
                self.store.seen.read(at, buf);
                Ok(())
            }
            _ => Err(DiskFault::Failed),
        }
    }

    #[inline(always)]
    fn write_at(&mut self, at: u32, bytes: &[u8]) -> Result<(), DiskFault>
        requires { at + length bytes.now ≤ length (seen_of self.old) }
        ensures written { OnOk result (seen_of self.new ≡ overwritten (seen_of self.old) at bytes.now) }
        ensures failed { OnErr result (Torn at (length bytes.now) (seen_of self.old) (seen_of self.new)) }
        ensures crash { Goes (Torn at (length bytes.now)) (moment self.old) (moment self.new) }
        ensures cause { HasCause self.old.script.faults self.new.script.faults result }
        ensures tells { Tells (passing_of self.old.script) (passing_of self.new.script) result }
        ensures cut { CutsWrite at bytes.now (moment self.old) (moment self.new) result }
        ensures writes { Writes (turn_of self.old.script) at bytes.now self.old self.new }
        ensures answer { result ≡ outcome (turn_of self.old.script) }
        ensures script { self.new.script ≡ after_write self.old.script }
    {
        match self.script.next_write() {
            Turn::Passes => {
                self.store.write(at, bytes);
                Ok(())
            }
            Turn::Stops(leave) => {
                self.store.stop_write(at, bytes, leave);
                Err(DiskFault::Failed)
            }
            Turn::Fails => Err(DiskFault::Failed),
        }
    }

    #[inline(always)]
    fn sync(&mut self) -> Result<(), DiskFault>
        ensures durable { OnOk result (Only (seen_of self.new) (images self.new)) }
        ensures seen { seen_of self.new ≡ seen_of self.old }
        ensures crash { Goes Same (moment self.old) (moment self.new) }
        ensures cause { HasCause self.old.script.faults self.new.script.faults result }
        ensures tells { Tells (passing_of self.old.script) (passing_of self.new.script) result }
        ensures cut { CutsSync (moment self.old) (moment self.new) }
        ensures syncs { Syncs (turn_of self.old.script) self.old self.new }
        ensures answer { result ≡ outcome (turn_of self.old.script) }
        ensures script { self.new.script ≡ after_write self.old.script }
    {
        match self.script.next_write() {
            Turn::Passes => {
                self.store.sync();
                Ok(())
            }
            _ => Err(DiskFault::Failed),
        }
    }
}
