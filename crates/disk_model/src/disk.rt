// A disk: what a read gives, and what a crash may leave.
ghost use Rattle.std.specs.Prelude.{◌≡◌, ◌≤◌, ◌<◌, ◌+◌, ◌^◌, ℕ, List, length, OnOk, OnErr};
ghost use Rattle.disk_model.specs.Images.{overwritten, bytes_at, Torn, Same};
ghost use Rattle.disk_model.specs.Disk.{Moment, Goes, IsSettled, HasCause, Tells, TellsRead, KeepsCut, CutsWrite, CutsSync};

use thiserror::Error;

/// The disk has failed. Nothing else is answered.
#[derive(Clone, Copy, Debug, PartialEq, Eq, Error)]
pub enum DiskFault {
    #[error("the disk failed")]
    Failed,
}

/// Bytes that stay, of a fixed number. Between two syncs a crash may leave any bytes in each written range.
pub trait Disk {
    /// What a read gives, what a crash may leave, how often the disk has failed, how many more calls pass, and what the one
    /// leaves that is then cut off.
    ghost moment: { Self → Moment };

    /// The number of bytes.
    fn len(&self) -> u32
        ensures { result ≡ length (moment self.now).seen };

    /// Reads the bytes from a place on.
    fn read(&mut self, at: u32, buf: &mut [u8]) -> Result<(), DiskFault>
        requires { at + length buf.old ≤ length (moment self.old).seen }
        ensures bytes { OnOk result (buf.new ≡ bytes_at (moment self.old).seen at (length buf.old)) }
        ensures seen { (moment self.new).seen ≡ (moment self.old).seen }
        ensures crash { Goes Same (moment self.old) (moment self.new) }
        ensures cause { HasCause (moment self.old).faults (moment self.new).faults result }
        ensures tells { TellsRead (moment self.old).passing (moment self.new).passing result }
        ensures cut { KeepsCut (moment self.old) (moment self.new) };

    /// Writes the bytes at a place. Until a sync, a crash may leave any bytes there.
    fn write_at(&mut self, at: u32, bytes: &[u8]) -> Result<(), DiskFault>
        requires { at + length bytes.now ≤ length (moment self.old).seen }
        ensures written { OnOk result ((moment self.new).seen ≡ overwritten (moment self.old).seen at bytes.now) }
        ensures failed { OnErr result (Torn at (length bytes.now) (moment self.old).seen (moment self.new).seen) }
        ensures crash { Goes (Torn at (length bytes.now)) (moment self.old) (moment self.new) }
        ensures cause { HasCause (moment self.old).faults (moment self.new).faults result }
        ensures tells { Tells (moment self.old).passing (moment self.new).passing result }
        ensures cut { CutsWrite at bytes.now (moment self.old) (moment self.new) result };

    /// Makes what is written durable: after it a crash leaves what a read gives.
    fn sync(&mut self) -> Result<(), DiskFault>
        ensures durable { OnOk result (IsSettled (moment self.new)) }
        ensures seen { (moment self.new).seen ≡ (moment self.old).seen }
        ensures crash { Goes Same (moment self.old) (moment self.new) }
        ensures cause { HasCause (moment self.old).faults (moment self.new).faults result }
        ensures tells { Tells (moment self.old).passing (moment self.new).passing result }
        ensures cut { CutsSync (moment self.old) (moment self.new) };

    /// What a read gives is one of the images of a crash now.
    ghost reads_an_image: { (d : Self) → (moment d).may_leave (moment d).seen };

    /// What a cut leaves is one of them.
    ghost leaves_an_image: { (d : Self) → (moment d).may_leave (moment d).left };

    /// An image has the disk's length.
    ghost keeps_length: { (d : Self) (c : List ℕ) → (moment d).may_leave c → length c ≡ length (moment d).seen };

    /// This moment is one of those since an earlier one.
    ghost counts_now: { (d : Self) (t : ℕ) (c : List ℕ) → t ≤ (moment d).now → (moment d).may_leave c → (moment d).may_have_left t c };

    /// Since this moment there is no other.
    ghost only_now: { (d : Self) (c : List ℕ) → (moment d).may_have_left (moment d).now c → (moment d).may_leave c };
}
