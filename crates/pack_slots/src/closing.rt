// Of two open slots of an inode the one that doesn't count is closed.
ghost use Rattle.std.specs.Prelude.{◌≡◌, ◌+◌, ◌*◌, ◌≤◌, ℕ, true, length, OnOk, OnErr, if◌then◌else◌};
ghost use Rattle.locus_ids.specs.Sizes.{inodes_max};
ghost use Rattle.disk_model.specs.Disk.{IsSettled, HasCause, Exactly};
ghost use Rattle.inode_switch.specs.of_gate_switch.Cutting.{CutsGate};
ghost use Rattle.pack_layout.specs.Layout.{area_length, slot_at};
ghost use Rattle.inode_switch.specs.Replace.{Loses};
ghost use Rattle.inode_switch.specs.View.{SameView};
ghost use Rattle.disk_model.specs.Moments.{LeavesOnly, TellsMany};
ghost use Rattle.pack_slots.specs.Copies.{copy_of, ShowsCopies};
ghost use Rattle.pack_slots.specs.Mounting.{losing_gates};
ghost use Rattle.pack_slots.specs.Cutting.{losing_inodes, closings_left};
ghost use Rattle.pack_slots.specs.Losing.{AreFound, IsClosing, KeepsCopies, closed_if, losing_half};

use crate::InodeCopy;
use disk_model::{Disk, DiskFault};
use inode_switch::close_losing_gate;
use locus_ids::Ino;
use locus_ids::sizes::INODES;
use pack_layout::{Half, nth_inode};

/// Closes all losing gates, inodes ascending.
pub fn close_losing<D: Disk>(
    disk: &mut D,
    base: u32,
    copies: &[Option<InodeCopy>],
    losing: &[bool],
) -> Result<(), DiskFault>
    requires settled { IsSettled (D.moment disk.old) }
    requires area { base + area_length ≤ length (D.moment disk.old).seen }
    requires copies { length copies.now ≡ inodes_max }
    requires losing { length losing.now ≡ inodes_max }
    requires found { AreFound base inodes_max (D.moment disk.old).seen copies.now losing.now }
    ensures any_moment { LeavesOnly (D.moment disk.old) (D.moment disk.new) (KeepsCopies base copies.now (D.moment disk.old).seen) }
    ensures kept { OnOk result (KeepsCopies base copies.now (D.moment disk.old).seen (D.moment disk.new).seen) }
    ensures shows { OnOk result (ShowsCopies base (D.moment disk.new).seen (copy_of copies.now)) }
    ensures durable { OnOk result (IsSettled (D.moment disk.new)) }
    ensures cause { HasCause (D.moment disk.old).faults (D.moment disk.new).faults result }
    ensures tells { TellsMany (2 * losing_gates base inodes_max (D.moment disk.old).seen) (D.moment disk.old).passing (D.moment disk.new).passing result }
    ensures how { (D.moment disk.new).how ≡ (D.moment disk.old).how }
    ensures cut { (passed : ℕ) → (D.moment disk.old).passing ≡ Exactly passed → OnErr result (losing_inodes base (D.moment disk.new).left ≡ closings_left (D.moment disk.old).how passed (losing_inodes base (D.moment disk.old).seen)) }
{
    for i in 0..INODES {
        let half = losing_half(&copies[usize::from(i)]);
        close_one(disk, base, nth_inode(i), half, losing[usize::from(i)])?;
    }
    Ok(())
}

/// The slot of an inode that isn't its copy's.
fn losing_half(copy: &Option<InodeCopy>) -> Half
    ensures { result ≡ losing_half copy.now }
{
    match copy {
        Some(copy) => copy.half.other(),
        None => Half::First,
    }
}

/// Closes the gate of a slot where it loses.
fn close_one<D: Disk>(
    disk: &mut D,
    base: u32,
    ino: Ino,
    half: Half,
    loses: bool,
) -> Result<(), DiskFault>
    requires settled { IsSettled (D.moment disk.old) }
    requires area { base + area_length ≤ length (D.moment disk.old).seen }
    requires loses { loses ≡ true → Loses base ino half (D.moment disk.old).seen }
    ensures any_moment { LeavesOnly (D.moment disk.old) (D.moment disk.new) (IsClosing base ino half loses (D.moment disk.old).seen) }
    ensures done { OnOk result ((D.moment disk.new).seen ≡ closed_if loses (slot_at base ino half) (D.moment disk.old).seen) }
    ensures view { OnOk result (SameView base (D.moment disk.old).seen (D.moment disk.new).seen) }
    ensures durable { OnOk result (IsSettled (D.moment disk.new)) }
    ensures cause { HasCause (D.moment disk.old).faults (D.moment disk.new).faults result }
    ensures tells { TellsMany (if loses then 2 else 0) (D.moment disk.old).passing (D.moment disk.new).passing result }
    ensures how { (D.moment disk.new).how ≡ (D.moment disk.old).how }
    ensures cut { OnErr result ((loses ≡ true) × CutsGate (slot_at base ino half) 0 (D.moment disk.old) (D.moment disk.new)) }
{
    if !loses {
        return Ok(());
    }
    let _len = disk.len();
    close_losing_gate(disk, base, ino, half)
}
