// Of two open slots of an inode the one that lost is closed.
ghost use Rattle.std.specs.Prelude.{◌≡◌, ◌≤◌, ◌<◌, ◌+◌, ◌-◌, ◌^◌, ℕ, List, [], ◌∷◌, length, OnOk, false};
ghost use Rattle.disk_model.specs.Images.{overwritten, Torn};
ghost use Rattle.disk_model.specs.Disk.{IsSettled, HasCause};
ghost use Rattle.disk_model.specs.Moments.{LeavesOnly, TellsMany};
ghost use Rattle.gate_switch.specs.Cutting.{CutsGate};
ghost use Rattle.pack_layout.specs.Layout.{area_length, slot_at};
ghost use Rattle.inode_switch.specs.View.{SameView};
ghost use Rattle.inode_switch.specs.Replace.{Loses};

use disk_model::{Disk, DiskFault};
use gate_switch::close_gate;
use locus_ids::Ino;
use pack_layout::{Half, slot_at};

/// Closes the gate of the slot that doesn't count, of an inode's two open slots, in the pack whose area begins at
/// `base`. Whenever a crash comes, the pack stands for what it stood for before.
pub fn close_losing_gate<D: Disk>(
    disk: &mut D,
    base: u32,
    ino: Ino,
    half: Half,
) -> Result<(), DiskFault>
    requires settled { IsSettled (D.moment disk.old) }
    requires short { base + area_length < 2 ^ 32 }
    requires loses { Loses base ino half (D.moment disk.old).seen }
    ensures any_moment { LeavesOnly (D.moment disk.old) (D.moment disk.new) (SameView base (D.moment disk.old).seen) }
    ensures torn { LeavesOnly (D.moment disk.old) (D.moment disk.new) (Torn (slot_at base ino half) 1 (D.moment disk.old).seen) }
    ensures outside { LeavesOnly (D.moment disk.old) (D.moment disk.new) (Torn base area_length (D.moment disk.old).seen) }
    ensures done { OnOk result ((D.moment disk.new).seen ≡ overwritten (D.moment disk.old).seen (slot_at base ino half) (0 ∷ [])) }
    ensures same { OnOk result (SameView base (D.moment disk.old).seen (D.moment disk.new).seen) }
    ensures durable { OnOk result (IsSettled (D.moment disk.new)) }
    ensures cause { HasCause (D.moment disk.old).faults (D.moment disk.new).faults result }
    ensures tells { TellsMany 2 (D.moment disk.old).passing (D.moment disk.new).passing result }
    ensures cut { CutsGate (slot_at base ino half) 0 (D.moment disk.old) (D.moment disk.new) }
{
    let gate = slot_at(base, ino, half);
    close_gate(disk, gate)
}
