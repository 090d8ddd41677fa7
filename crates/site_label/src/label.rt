ghost use Rattle.std.specs.Prelude.{◌≡◌, ◌≤◌, ◌<◌, ◌+◌, ◌^◌, ◌++◌, ℕ, List, length, replicate, false, OnOk, OnErr, IfOk, IfErr, if◌then◌else◌};
ghost use Rattle.disk_model.specs.Images.{Torn, Same};
ghost use Rattle.disk_model.specs.Disk.{Goes, IsSettled, HasCause, TellsRead, KeepsCut, Exactly};
ghost use Rattle.disk_model.specs.Moments.{LeavesOnly, TellsMany};
ghost use Rattle.site_label.specs.Label.{label_bytes, HasBoot, IsAlone, IsNew, half_bytes};
ghost use Rattle.site_label.specs.Reading.{IsCounted};
ghost use Rattle.site_label.specs.Raising.{IsRaising, MayBeLeft, IsRaised, IsUnread, IsCause, IsEarly, boot_calls, disk_answer, are_open};
ghost use Rattle.site_label.specs.Cutting.{IsLabel, IsLeft, boot_left, raise_left};

use crate::LabelFault;
use crate::body::HalfBody;
use crate::half::half_bytes;
use crate::reading::{Counted, read_label};
use disk_model::{Disk, DiskFault};
use gate_switch::{close_gate, switch};
use locus_ids::SiteId;

/// The bytes of a label.
const LABEL_BYTES: usize = 1_024;

/// The first 1,024 bytes of a disk.
pub struct Label;

impl Label {
    /// Makes the first 1,024 bytes of a disk the label of a site, with the boot number 1.
    pub fn format<D: Disk>(disk: &mut D, site: SiteId) -> Result<(), DiskFault>
        requires { label_bytes ≤ length (D.moment disk.old).seen }
        ensures formatted { OnOk result (IsNew site (D.moment disk.new).seen) }
        ensures boot { OnOk result (HasBoot site 1 (D.moment disk.new).seen) }
        ensures alone { OnOk result (are_open (D.moment disk.new).seen ≡ false) }
        ensures outside { OnOk result (Torn 0 label_bytes (D.moment disk.old).seen (D.moment disk.new).seen) }
        ensures durable { OnOk result (IsSettled (D.moment disk.new)) }
        ensures crash { Goes (Torn 0 label_bytes) (D.moment disk.old) (D.moment disk.new) }
        ensures cause { HasCause (D.moment disk.old).faults (D.moment disk.new).faults result }
        ensures tells { TellsMany 2 (D.moment disk.old).passing (D.moment disk.new).passing result }
    {
        disk.write_at(0, &new_label(site))?;
        disk.sync()
    }

    /// The boot number of the site's label. It is not raised, and `Spent` is never answered.
    pub fn number<D: Disk>(disk: &mut D, site: SiteId) -> Result<u32, LabelFault>
        requires { label_bytes ≤ length (D.moment disk.old).seen }
        ensures number { IfOk result (λ boot. HasBoot site boot (D.moment disk.old).seen) }
        ensures fault { IfErr result (λ fault. IsUnread site (D.moment disk.old).seen fault) }
        ensures seen { (D.moment disk.new).seen ≡ (D.moment disk.old).seen }
        ensures crash { Goes Same (D.moment disk.old) (D.moment disk.new) }
        ensures cause { HasCause (D.moment disk.old).faults (D.moment disk.new).faults (disk_answer result) }
        ensures tells { TellsRead (D.moment disk.old).passing (D.moment disk.new).passing (disk_answer result) }
        ensures cut { KeepsCut (D.moment disk.old) (D.moment disk.new) }
    {
        let counted = read_label(disk, site)?;
        Ok(counted.boot)
    }

    /// Raises the boot number of the site's label by one, and gives the raised one. Whenever a crash comes, the label has the
    /// number from before or the raised one. `NotALabel` comes exactly where it has none, and `Spent` exactly at the greatest.
    pub fn boot<D: Disk>(disk: &mut D, site: SiteId) -> Result<u32, LabelFault>
        requires settled { IsSettled (D.moment disk.old) }
        requires long { label_bytes ≤ length (D.moment disk.old).seen }

        // At each moment a crash leaves the number from before or the raised one, and nothing else changed.
        ensures any_moment { LeavesOnly (D.moment disk.old) (D.moment disk.new) (MayBeLeft site (D.moment disk.old).seen) }

        // After it the label has the raised number, whatever comes.
        ensures raised { IfOk result (λ boot. IsRaised site (D.moment disk.old).seen boot) }
        ensures boot { IfOk result (λ boot. HasBoot site boot (D.moment disk.new).seen) }
        ensures alone { OnOk result (are_open (D.moment disk.new).seen ≡ false) }
        ensures durable { OnOk result (IsSettled (D.moment disk.new)) }

        ensures fault { IfErr result (λ fault. IsCause site (D.moment disk.old).seen fault) }
        ensures early { IfErr result (λ fault. IsEarly fault → LeavesOnly (D.moment disk.old) (D.moment disk.new) (Same (D.moment disk.old).seen)) }

        // The disk fails only where its count rose, and where it tells how many calls pass, exactly where they are too few.
        ensures cause { HasCause (D.moment disk.old).faults (D.moment disk.new).faults (disk_answer result) }
        ensures tells { TellsMany (boot_calls (D.moment disk.old).seen result) (D.moment disk.old).passing (D.moment disk.new).passing (disk_answer result) }

        // Where it tells so, a crash as it cuts off the call leaves just this.
        ensures how { (D.moment disk.new).how ≡ (D.moment disk.old).how }
        ensures cut { (before passed : ℕ) → HasBoot site before (D.moment disk.old).seen → (D.moment disk.old).passing ≡ Exactly passed
            → OnErr (disk_answer result) (IsLeft site (boot_left (are_open (D.moment disk.old).seen) (D.moment disk.old).how passed before) (D.moment disk.old).seen (D.moment disk.new).left) }
    {
        let counted = read_label(disk, site)?;
        if counted.boot == u32::MAX {
            return Err(LabelFault::Spent);
        }
        close_other(disk, site, &counted)?;
        raise(disk, site, &counted)?;
        Ok(counted.boot + 1)
    }
}

/// The bytes of a new label.
fn new_label(site: SiteId) -> [u8; LABEL_BYTES]
    ensures { result ≡ half_bytes site 1 ++ replicate 512 0 }
{
    let mut bytes = [0; LABEL_BYTES];
    bytes[..512].copy_from_slice(&half_bytes(site, 1));
    bytes
}

/// Closes the half that doesn't count, where it is open.
fn close_other<D: Disk>(disk: &mut D, site: SiteId, counted: &Counted) -> Result<(), DiskFault>
    requires settled { IsSettled (D.moment disk.old) }
    requires long { label_bytes ≤ length (D.moment disk.old).seen }
    requires counted { IsCounted site (D.moment disk.old).seen counted.now }
    ensures any_moment { LeavesOnly (D.moment disk.old) (D.moment disk.new) (IsRaising site counted.now.boot (D.moment disk.old).seen) }
    ensures alone { OnOk result (IsAlone site counted.now.boot counted.now.half (D.moment disk.new).seen) }
    ensures outside { OnOk result (Torn 0 label_bytes (D.moment disk.old).seen (D.moment disk.new).seen) }
    ensures durable { OnOk result (IsSettled (D.moment disk.new)) }
    ensures cause { HasCause (D.moment disk.old).faults (D.moment disk.new).faults result }
    ensures tells { TellsMany (if counted.now.beside then 2 else 0) (D.moment disk.old).passing (D.moment disk.new).passing result }
    ensures how { (D.moment disk.new).how ≡ (D.moment disk.old).how }
    ensures cut { (passed : ℕ) → (D.moment disk.old).passing ≡ Exactly passed → OnErr result (IsLabel site (boot_left counted.now.beside (D.moment disk.old).how passed counted.now.boot) (D.moment disk.new).left) }
{
    if !counted.beside {
        return Ok(());
    }
    close_gate(disk, counted.half.other().at())
}

/// Writes the next boot number into the other half, and closes the one that counts.
fn raise<D: Disk>(disk: &mut D, site: SiteId, counted: &Counted) -> Result<(), DiskFault>
    requires settled { IsSettled (D.moment disk.old) }
    requires long { label_bytes ≤ length (D.moment disk.old).seen }
    requires alone { IsAlone site counted.now.boot counted.now.half (D.moment disk.old).seen }
    requires fits { counted.now.boot + 1 < 2 ^ 32 }
    ensures any_moment { LeavesOnly (D.moment disk.old) (D.moment disk.new) (IsRaising site counted.now.boot (D.moment disk.old).seen) }
    ensures raised { OnOk result (HasBoot site (counted.now.boot + 1) (D.moment disk.new).seen) }
    ensures durable { OnOk result (IsSettled (D.moment disk.new)) }
    ensures cause { HasCause (D.moment disk.old).faults (D.moment disk.new).faults result }
    ensures tells { TellsMany 6 (D.moment disk.old).passing (D.moment disk.new).passing result }
    ensures alone { OnOk result (are_open (D.moment disk.new).seen ≡ false) }
    ensures how { (D.moment disk.new).how ≡ (D.moment disk.old).how }
    ensures cut { (passed : ℕ) → (D.moment disk.old).passing ≡ Exactly passed → OnErr result (IsLabel site (raise_left (D.moment disk.old).how passed counted.now.boot) (D.moment disk.new).left) }
{
    let half = counted.half.other();
    let boot = counted.boot + 1;
    let body = HalfBody { half, site, boot };
    switch(disk, &body, half.at(), Some(counted.half.at()))
}
