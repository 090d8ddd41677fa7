// One inode is replaced, wholly or not at all.
ghost use Rattle.std.specs.Prelude.{◌≡◌, ◌≤◌, ◌<◌, ◌+◌, ◌-◌, ◌^◌, ℕ, List, length, OnOk, OnErr, if◌then◌else◌};
ghost use Rattle.disk_model.specs.Images.{Torn};
ghost use Rattle.disk_model.specs.Disk.{IsSettled, HasCause, Exactly};
ghost use Rattle.disk_model.specs.Moments.{LeavesOnly, TellsMany};
ghost use Rattle.gate_switch.specs.Switch.{IsStage, switched, calls_of};
ghost use Rattle.pack_layout.specs.Layout.{area_length, slot_at, other_half};
ghost use Rattle.inode_switch.specs.View.{is_open, IsOldOrNew, Replaced};
ghost use Rattle.inode_switch.specs.Replace.{MayReplace, made_version, closing};
ghost use Rattle.inode_switch.specs.Cutting.{IsCutReplacing};

use disk_model::{Disk, DiskFault};
use gate_switch::{PieceSource, switch};
use locus_ids::Ino;
use pack_layout::{Half, slot_at};

/// Replaces the version of an inode in the pack whose area begins at `base`: the pieces of the source are the changed pages and
/// tables, and what stands behind the gate of slot `half`. Whenever a crash comes, the pack is wholly old or wholly new. `closes` says
/// whether the inode's other slot is open, and then to be closed.
pub fn replace_inode<D: Disk, P: PieceSource>(
    disk: &mut D,
    base: u32,
    ino: Ino,
    half: Half,
    closes: bool,
    source: &P,
) -> Result<(), DiskFault>
    requires settled { IsSettled (D.moment disk.old) }
    requires short { base + area_length < 2 ^ 32 }
    requires may { MayReplace base ino half (P.pieces source.now) (D.moment disk.old).seen }
    requires closes { closes ≡ is_open (D.moment disk.old).seen (slot_at base ino (other_half half)) }

    // At each moment of the call a crash leaves the view from before, or that view with this inode replaced.
    ensures any_moment { LeavesOnly (D.moment disk.old) (D.moment disk.new)
        (IsOldOrNew base ino (made_version base ino half (P.pieces source.now) (D.moment disk.old).seen) (D.moment disk.old).seen) }

    // It leaves the pieces torn, or all of them and the gate torn, or the gate open and the old gate torn; what is outside
    // the area stays.
    ensures stages { LeavesOnly (D.moment disk.old) (D.moment disk.new)
        (IsStage (P.pieces source.now) (slot_at base ino half) (closing base ino half (D.moment disk.old).seen) (D.moment disk.old).seen) }
    ensures outside { LeavesOnly (D.moment disk.old) (D.moment disk.new) (Torn base area_length (D.moment disk.old).seen) }

    // After it the new version is there, and a crash leaves what a read gives.
    ensures done { OnOk result ((D.moment disk.new).seen ≡ switched (P.pieces source.now) (slot_at base ino half) (closing base ino half (D.moment disk.old).seen) (D.moment disk.old).seen) }
    ensures replaced { OnOk result (Replaced base ino (made_version base ino half (P.pieces source.now) (D.moment disk.old).seen) (D.moment disk.old).seen (D.moment disk.new).seen) }
    ensures durable { OnOk result (IsSettled (D.moment disk.new)) }

    ensures cause { HasCause (D.moment disk.old).faults (D.moment disk.new).faults result }
    ensures tells { TellsMany (calls_of (P.pieces source.now) (closing base ino half (D.moment disk.old).seen)) (D.moment disk.old).passing (D.moment disk.new).passing result }

    // Where it tells so, a crash as it cuts off the call leaves just this.
    ensures how { (D.moment disk.new).how ≡ (D.moment disk.old).how }
    ensures cut { (pages passed : ℕ) → length (P.pieces source.now) ≡ pages + 1 → (D.moment disk.old).passing ≡ Exactly passed
        → OnErr result (IsCutReplacing base ino half (P.pieces source.now) pages (D.moment disk.old).how passed (D.moment disk.old).seen (D.moment disk.new).left) }
{
    let gate = slot_at(base, ino, half);
    let old_gate = closing_place(base, ino, half, closes);
    switch(disk, source, gate, old_gate)
}

fn closing_place(base: u32, ino: Ino, half: Half, closes: bool) -> Option<u32>
    requires { base + area_length < 2 ^ 32 }
    ensures { result ≡ (if closes then Some (slot_at base ino (other_half half)) else None) }
{
    if closes {
        Some(slot_at(base, ino, half.other()))
    } else {
        None
    }
}
