// What a switch writes is on the disk before its gate opens, and the old gate closes last.
ghost use Rattle.std.specs.Prelude.{◌≡◌, ◌≤◌, ◌<◌, ◌+◌, ℕ, List, [], ◌∷◌, length, OnOk, OnErr, IsOk};
ghost use Rattle.disk_model.specs.Images.{overwritten, Torn};
ghost use Rattle.disk_model.specs.Disk.{Goes, IsSettled, HasCause, Exactly};
ghost use Rattle.disk_model.specs.Moments.{LeavesOnly, TellsMany};
ghost use Rattle.gate_switch.specs.Switch.{Piece, AreWithin, TornIn, written, IsStage, switched, calls_of, GateWithin};
ghost use Rattle.gate_switch.specs.Cutting.{CutsGate, IsCut};

use crate::PieceSource;
use disk_model::{Disk, DiskFault};

const OPEN: u8 = 0xA5;

const CLOSED: u8 = 0x00;

/// Writes the pieces of a source and syncs, opens a gate and syncs, and then closes the old gate, where there is one, and syncs.
pub fn switch<D: Disk, P: PieceSource>(
    disk: &mut D,
    source: &P,
    gate: u32,
    old_gate: Option<u32>,
) -> Result<(), DiskFault>
    requires settled { IsSettled (D.moment disk.old) }
    requires pieces { AreWithin (P.pieces source.now) (length (D.moment disk.old).seen) }
    requires gate { gate < length (D.moment disk.old).seen }
    requires old_gate { GateWithin old_gate (length (D.moment disk.old).seen) }

    // A crash leaves the pieces torn, or all of them and the gate torn, or the gate open and the old gate torn.
    ensures any_moment { LeavesOnly (D.moment disk.old) (D.moment disk.new) (IsStage (P.pieces source.now) gate old_gate (D.moment disk.old).seen) }

    ensures done { OnOk result ((D.moment disk.new).seen ≡ switched (P.pieces source.now) gate old_gate (D.moment disk.old).seen) }
    ensures durable { OnOk result (IsSettled (D.moment disk.new)) }

    // It fails only where the disk did, and where the disk tells how many calls pass, exactly where they are too few.
    ensures cause { HasCause (D.moment disk.old).faults (D.moment disk.new).faults result }
    ensures tells { TellsMany (calls_of (P.pieces source.now) old_gate) (D.moment disk.old).passing (D.moment disk.new).passing result }

    // Where it does, a crash as the disk cuts off the call leaves just this.
    ensures how { (D.moment disk.new).how ≡ (D.moment disk.old).how }
    ensures cut { (passed : ℕ) → (D.moment disk.old).passing ≡ Exactly passed → OnErr result (IsCut (P.pieces source.now) gate old_gate (D.moment disk.old).how passed (D.moment disk.old).seen (D.moment disk.new).left) }
{
    write_down(disk, source)?;
    set_gate(disk, gate, OPEN)?;
    if let Some(old_gate) = old_gate {
        set_gate(disk, old_gate, CLOSED)?;
    }
    Ok(())
}

/// Closes a gate and syncs.
pub fn close_gate<D: Disk>(disk: &mut D, gate: u32) -> Result<(), DiskFault>
    requires { gate < length (D.moment disk.old).seen }
    ensures written { OnOk result ((D.moment disk.new).seen ≡ overwritten (D.moment disk.old).seen gate (0 ∷ [])) }
    ensures durable { OnOk result (IsSettled (D.moment disk.new)) }
    ensures crash { Goes (Torn gate 1) (D.moment disk.old) (D.moment disk.new) }
    ensures cause { HasCause (D.moment disk.old).faults (D.moment disk.new).faults result }
    ensures tells { TellsMany 2 (D.moment disk.old).passing (D.moment disk.new).passing result }
    ensures cut { CutsGate gate 0 (D.moment disk.old) (D.moment disk.new) }
{
    set_gate(disk, gate, CLOSED)
}

/// Writes the pieces in order and makes them durable.
fn write_down<D: Disk, P: PieceSource>(disk: &mut D, source: &P) -> Result<(), DiskFault>
    requires { AreWithin (P.pieces source.now) (length (D.moment disk.old).seen) }
    ensures written { OnOk result ((D.moment disk.new).seen ≡ written (D.moment disk.old).seen (P.pieces source.now)) }
    ensures durable { OnOk result (IsSettled (D.moment disk.new)) }
    ensures crash { Goes (TornIn (P.pieces source.now)) (D.moment disk.old) (D.moment disk.new) }
    ensures cause { HasCause (D.moment disk.old).faults (D.moment disk.new).faults result }
    ensures tells { TellsMany (length (P.pieces source.now) + 1) (D.moment disk.old).passing (D.moment disk.new).passing result }
    ensures how { (D.moment disk.new).how ≡ (D.moment disk.old).how }
{
    source.write_to(disk)?;
    disk.sync()
}

/// Writes a gate and makes it durable.
#[inline(always)]
fn set_gate<D: Disk>(disk: &mut D, gate: u32, byte: u8) -> Result<(), DiskFault>
    requires { gate < length (D.moment disk.old).seen }
    ensures written { OnOk result ((D.moment disk.new).seen ≡ overwritten (D.moment disk.old).seen gate (byte ∷ [])) }
    ensures durable { OnOk result (IsSettled (D.moment disk.new)) }
    ensures crash { Goes (Torn gate 1) (D.moment disk.old) (D.moment disk.new) }
    ensures cause { HasCause (D.moment disk.old).faults (D.moment disk.new).faults result }
    ensures tells { TellsMany 2 (D.moment disk.old).passing (D.moment disk.new).passing result }
    ensures cut { CutsGate gate byte (D.moment disk.old) (D.moment disk.new) }
{
    disk.write_at(gate, &[byte])?;
    disk.sync()
}
