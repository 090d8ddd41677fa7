// A disk in memory that keeps each call.
ghost use Rattle.std.specs.Prelude.{◌≡◌, ◌≤◌, ◌<◌, ◌+◌, ◌^◌, ◌-◌, ℕ, List, [], length, replicate, refl, ◌↔◌, IsOk, OnOk, OnErr, IfOk, vec_capacity};
ghost use Rattle.disk_model.specs.Images.{overwritten, bytes_at, Torn, Same};
ghost use Rattle.disk_model.specs.Disk.{Goes, Only, HasCause, Tells, TellsRead, Untold, KeepsCut, CutsWrite, CutsSync};
ghost use Rattle.disk_model.specs.RecordDisk.{after_call, state_after, disk_end, pool_end, StandInPool, StandOnDisk};
ghost use Rattle.disk_model.specs.declared.store.Span.{Span};

use crate::store::{Span, put};
use crate::{Disk, DiskFault};
use locus_ids::NoMemory;
use std::alloc::Global;

/// A call that was kept: a write of the bytes that stand in the pool from a place on, or a sync.
#[derive(Clone, Copy)]
pub enum Call {
    Wrote(Span, usize),
    Synced,
}

/// A disk in memory that keeps each write and sync, so that no image that a crash may have left is forgotten.
#[derive(Drop)]
pub struct RecordDisk {
    seen: Vec<u8>,
    pool: Vec<u8>,
    calls: Vec<Call>,
    faults: u64,
    bytes_room: usize,
    calls_room: usize,
    ghost short: { length seen.items < 2 ^ 32 },
    ghost bytes_room_is: { bytes_room ≤ vec_capacity pool },
    ghost bytes_fit: { length pool.items ≤ bytes_room },
    ghost calls_room_is: { calls_room ≤ vec_capacity calls },
    ghost calls_fit: { length calls.items ≤ calls_room },
    ghost in_pool: { StandInPool pool.items calls.items },
    ghost on_disk: { StandOnDisk (length seen.items) calls.items },
    ghost replayed: { (state_after (length seen.items) pool.items calls.items (length calls.items)).read ≡ seen.items },
}

impl RecordDisk {
    ghost use Rattle.std.specs.Prelude.{◌++◌, ◌∷◌, take};
    ghost use Rattle.disk_model.specs.RecordDisk.{played};
    ghost use Rattle.disk_model.specs.declared.record_disk.Call.TheVariants.{Wrote, Synced};
    ghost use Rattle.disk_model.specs.RecordImages.{seen, SameRoom};

    /// A disk of zeros, with room for a record of so many writes and syncs and of so many written bytes. No later call
    /// takes memory. A call past the room fails.
    pub fn new(alloc: Global, len: u32, calls: u32, bytes: u32) -> Result<RecordDisk, NoMemory>
        ensures zeros { IfOk result (λ disk. seen disk ≡ replicate len 0) }
        ensures calls { IfOk result (λ disk. (disk.calls.items ≡ []) × (disk.pool.items ≡ [])) }
        ensures faults { IfOk result (λ disk. disk.faults ≡ 0) }
        ensures room { IfOk result (λ disk. (disk.calls_room ≡ calls) × (disk.bytes_room ≡ bytes)) }
    {
        let calls_room = calls as usize;
        let bytes_room = bytes as usize;
        let mut seen = Vec::new(alloc);
        seen.resize(len as usize, 0)?;
        let pool = Vec::with_capacity(alloc, bytes_room)?;
        let calls = Vec::with_capacity(alloc, calls_room)?;
        Ok(RecordDisk {
            seen,
            pool,
            calls,
            faults: 0,
            bytes_room,
            calls_room,
        })
    }

    /// How many calls are kept.
    pub fn calls(&self) -> usize
        ensures { result ≡ length self.now.calls.items }
    {
        self.calls.len()
    }

    /// Makes the first so many of the kept calls on another disk, which then reads as this one did after them.
    pub fn replay<D: Disk>(&self, calls: usize, disk: &mut D) -> Result<(), DiskFault>
        requires calls { calls ≤ length self.now.calls.items }
        requires long { length (D.moment disk.old).seen ≡ length (seen self.now) }
        ensures read { OnOk result ((played self.now.pool.items (record { read = (D.moment disk.old).seen; waiting = [] }) (take calls self.now.calls.items)).read ≡ (D.moment disk.new).seen) }
        ensures cause { HasCause (D.moment disk.old).faults (D.moment disk.new).faults result }
    {
        let kept = self.calls.as_slice();
        for call in &kept[..calls] {
            repeat(&self.pool, *call, disk)?;
        }
        Ok(())
    }

    // There is room for a call more.
    fn keep_sync(&mut self)
        requires { length self.old.calls.items < self.old.calls_room }
        ensures seen { self.new.seen.items ≡ self.old.seen.items }
        ensures pool { self.new.pool.items ≡ self.old.pool.items }
        ensures calls { self.new.calls.items ≡ self.old.calls.items ++ Synced ∷ [] }
        ensures room { SameRoom self.old self.new }
        ensures faults { self.new.faults ≡ self.old.faults }
    {
        let _ = self.calls.push(Call::Synced);
    }

    // There is room for a call more, and for its bytes.
    fn keep_write(&mut self, at: u32, bytes: &[u8])
        requires fits { at + length bytes.now ≤ length self.old.seen.items }
        requires calls { length self.old.calls.items < self.old.calls_room }
        requires bytes { length self.old.pool.items + length bytes.now ≤ self.old.bytes_room }
        ensures seen { self.new.seen.items ≡ overwritten self.old.seen.items at bytes.now }
        ensures pool { self.new.pool.items ≡ self.old.pool.items ++ bytes.now }
        ensures calls { self.new.calls.items ≡ self.old.calls.items ++ Wrote (record { at = at; len = length bytes.now }) (length self.old.pool.items) ∷ [] }
        ensures room { SameRoom self.old self.new }
        ensures faults { self.new.faults ≡ self.old.faults }
    {
        let _seen = self.seen.len();
        let from = self.pool.len();
        let span = Span {
            at,
            len: bytes.len() as u32,
        };
        let _ = self.pool.extend_from_slice(bytes);
        let _ = self.calls.push(Call::Wrote(span, from));
        put(&mut self.seen, at as usize, bytes);
    }
}

/// Makes a kept call on a disk.
fn repeat<D: Disk>(pool: &[u8], call: Call, disk: &mut D) -> Result<(), DiskFault>
    requires pool { pool_end call ≤ length pool.now }
    requires disk { disk_end call ≤ length (D.moment disk.old).seen }
    ensures read { OnOk result ((waiting : List Span) → (after_call pool.now (record { read = (D.moment disk.old).seen; waiting = waiting }) call).read ≡ (D.moment disk.new).seen) }
    ensures long { OnOk result (length (D.moment disk.new).seen ≡ length (D.moment disk.old).seen) }
    ensures cause { HasCause (D.moment disk.old).faults (D.moment disk.new).faults result }
{
    match call {
        Call::Wrote(span, from) => {
            let end = from + span.len as usize;
            disk.write_at(span.at, &pool[from..end])
        }
        Call::Synced => disk.sync(),
    }
}

impl Disk for RecordDisk {
    ghost use Rattle.disk_model.specs.RecordImages.{seen as seen_of, moment, images, wrote, Remembers, HasRoom, SameRoom, Keeps, KeepsNone};
    ghost use Rattle.disk_model.specs.declared.record_disk.Call.TheVariants.{Synced};
    ghost use Rattle.disk_model.specs.RecordLaws.{reads_one, same_length, one_now, none_else};

    ghost moment = { moment };

    ghost reads_an_image = { reads_one };

    ghost leaves_an_image = { reads_one };

    ghost keeps_length = { same_length };

    ghost counts_now = { one_now };

    ghost only_now = { none_else };

    fn len(&self) -> u32 {
        self.seen.len() as u32
    }

    fn read(&mut self, at: u32, buf: &mut [u8]) -> Result<(), DiskFault>
        requires { at + length buf.old ≤ length (seen_of self.old) }
        ensures bytes { OnOk result (buf.new ≡ bytes_at (seen_of self.old) at (length buf.old)) }
        ensures seen { seen_of self.new ≡ seen_of self.old }
        ensures crash { Goes Same (moment self.old) (moment self.new) }
        ensures cause { HasCause self.old.faults self.new.faults result }
        ensures cut { KeepsCut (moment self.old) (moment self.new) }
        ensures same { self.new ≡ self.old }
        ensures answer { IsOk result }
    {
        let from = at as usize;
        buf.copy_from_slice(&self.seen[from..from + buf.len()]);
        Ok(())
    }

    fn write_at(&mut self, at: u32, bytes: &[u8]) -> Result<(), DiskFault>
        requires { at + length bytes.now ≤ length (seen_of self.old) }
        ensures written { OnOk result (seen_of self.new ≡ overwritten (seen_of self.old) at bytes.now) }
        ensures failed { OnErr result (Torn at (length bytes.now) (seen_of self.old) (seen_of self.new)) }
        ensures crash { Goes (Torn at (length bytes.now)) (moment self.old) (moment self.new) }
        ensures cause { HasCause self.old.faults self.new.faults result }
        ensures cut { CutsWrite at bytes.now (moment self.old) (moment self.new) result }
        ensures remembers { Remembers self.old self.new }
        ensures answer { IsOk result ↔ HasRoom self.old (length bytes.now) }
        ensures full { OnErr result (seen_of self.new ≡ seen_of self.old) }
        ensures kept { OnOk result (Keeps (wrote self.old at (length bytes.now)) bytes.now self.old self.new) }
        ensures faults { OnOk result (self.new.faults ≡ self.old.faults) }
        ensures not_kept { OnErr result (KeepsNone self.old self.new) }
        ensures room { SameRoom self.old self.new }
    {
        let room = self.bytes_room - self.pool.len();
        if self.calls.len() >= self.calls_room || bytes.len() > room {
            self.faults = self.faults.saturating_add(1);
            return Err(DiskFault::Failed);
        }
        self.keep_write(at, bytes);
        Ok(())
    }

    fn sync(&mut self) -> Result<(), DiskFault>
        ensures durable { OnOk result (Only (seen_of self.new) (images self.new)) }
        ensures seen { seen_of self.new ≡ seen_of self.old }
        ensures crash { Goes Same (moment self.old) (moment self.new) }
        ensures cause { HasCause self.old.faults self.new.faults result }
        ensures cut { CutsSync (moment self.old) (moment self.new) }
        ensures remembers { Remembers self.old self.new }
        ensures answer { IsOk result ↔ HasRoom self.old 0 }
        ensures kept { OnOk result (Keeps Synced [] self.old self.new) }
        ensures faults { OnOk result (self.new.faults ≡ self.old.faults) }
        ensures not_kept { OnErr result (KeepsNone self.old self.new) }
        ensures room { SameRoom self.old self.new }
    {
        if self.calls.len() >= self.calls_room {
            self.faults = self.faults.saturating_add(1);
            return Err(DiskFault::Failed);
        }
        self.keep_sync();
        Ok(())
    }
}
