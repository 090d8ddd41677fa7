ghost use Rattle.std.specs.Prelude.{◌≡◌, ℕ};
ghost use Rattle.role_steps.specs.Views.{file_key, stamp_key, serial_key, process_key};
ghost use Rattle.role_steps.specs.Versions.{row_ino, version_key, holding_site};
ghost use Rattle.role_steps.specs.Opens.{open_key};
ghost use Rattle.role_steps.specs.Looks.{look_key};
ghost use Rattle.role_steps.specs.Storage.{copy_key, instance_key};
ghost use Rattle.role_steps.specs.Pulling.{pull_key};
ghost use Rattle.role_steps.specs.Epochs.{promise_site};
ghost use Rattle.role_steps.specs.Requests.{waiting_of, waiting_key, instance_serial, fd_key, descriptor_key};

use locus_ids::sizes::{DESCRIPTOR_SPAN, INODE_SPAN};
use locus_ids::{FileId, Serial, SiteId, Stamp};
use role_steps::{
    DescriptorRow, FileCopy, FileRow, Holding, Instance, LastLook, OpenRow, Promise, Pull,
    UserInstance, VersionRow, WaitingCall,
};
use trace_book::Call;

/// A row of a table has a key, a number by which it is found.
pub trait Keyed {
    ghost key: { Self → ℕ };

    fn key(&self) -> u64
        ensures { result ≡ key self.now };
}

/// The key of a file: its group and then its inode.
pub fn file_key(file: FileId) -> u64
    ensures { result ≡ file_key file }
{
    u64::from(file.group) * INODE_SPAN + u64::from(file.ino)
}

/// The key of a version: the site that committed it, and then its number there.
pub fn stamp_key(stamp: Stamp) -> u64
    ensures { result ≡ stamp_key stamp }
{
    u64::from(stamp.site) * 4_294_967_296 + u64::from(stamp.n)
}

/// The key of an instance: its serial number, and then its using site.
pub fn serial_key(inst: Serial) -> u64
    ensures { result ≡ serial_key inst }
{
    u64::from(inst.serial) * 256 + u64::from(inst.us)
}

/// The key of a process: its site, and then its number there.
pub fn process_key(site: SiteId, process: u8) -> u64
    ensures { result ≡ process_key site process }
{
    u64::from(site.get()) * 256 + u64::from(process)
}

/// The key of a descriptor: its process, and then its number there.
pub fn descriptor_key(process: u8, fd: u16) -> u64
    ensures { result ≡ fd_key process fd }
{
    u64::from(process) * DESCRIPTOR_SPAN + u64::from(fd)
}

/// The key of a call that waits: mends come first, by group, and then calls by process.
pub fn waiting_key(process: u8, words: &Call) -> u64
    ensures { result ≡ waiting_of process words.now }
{
    match words {
        Call::Mend { file } => u64::from(file.group),
        _ => 16 * u64::from(process),
    }
}

impl Keyed for FileRow {
    ghost key = { row_ino };

    fn key(&self) -> u64 {
        u64::from(self.ino)
    }
}

impl Keyed for VersionRow {
    ghost key = { version_key };

    fn key(&self) -> u64 {
        stamp_key(self.stamp)
    }
}

impl Keyed for Holding {
    ghost key = { holding_site };

    fn key(&self) -> u64 {
        u64::from(self.site.get())
    }
}

impl Keyed for OpenRow {
    ghost key = { open_key };

    fn key(&self) -> u64 {
        serial_key(self.inst)
    }
}

impl Keyed for LastLook {
    ghost key = { look_key };

    fn key(&self) -> u64 {
        process_key(self.site, self.process)
    }
}

impl Keyed for FileCopy {
    ghost key = { copy_key };

    fn key(&self) -> u64 {
        file_key(self.file)
    }
}

impl Keyed for Instance {
    ghost key = { instance_key };

    fn key(&self) -> u64 {
        serial_key(self.inst)
    }
}

impl Keyed for Pull {
    ghost key = { pull_key };

    fn key(&self) -> u64 {
        file_key(self.file)
    }
}

impl Keyed for Promise {
    ghost key = { promise_site };

    fn key(&self) -> u64 {
        u64::from(self.site.get())
    }
}

impl Keyed for WaitingCall {
    ghost key = { waiting_key };

    fn key(&self) -> u64 {
        waiting_key(self.process, &self.words)
    }
}

impl Keyed for UserInstance {
    ghost key = { instance_serial };

    fn key(&self) -> u64 {
        u64::from(self.serial)
    }
}

impl Keyed for DescriptorRow {
    ghost key = { descriptor_key };

    fn key(&self) -> u64 {
        descriptor_key(self.process, self.fd)
    }
}

impl Keyed for SiteId {
    ghost key = { λ s. s };

    fn key(&self) -> u64 {
        u64::from(self.get())
    }
}

impl Keyed for u8 {
    ghost key = { λ n. n };

    fn key(&self) -> u64 {
        u64::from(*self)
    }
}
