// What is written before a gate opens.
ghost use Rattle.std.specs.Prelude.{◌≡◌, ℕ, List, length, OnOk};
ghost use Rattle.disk_model.specs.Disk.{Goes, HasCause};
ghost use Rattle.disk_model.specs.Moments.{TellsMany};
ghost use Rattle.gate_switch.specs.Switch.{Piece, AreWithin, TornIn, written};

use disk_model::{Disk, DiskFault};

/// Pieces that are written before a gate opens. They need not stand in memory as a list.
pub trait PieceSource {
    /// The pieces in the order of their writing.
    ghost pieces: { Self → List Piece };

    /// Writes the pieces in order.
    fn write_to<D: Disk>(&self, disk: &mut D) -> Result<(), DiskFault>
        requires { AreWithin (pieces self.now) (length (D.moment disk.old).seen) }
        ensures written { OnOk result ((D.moment disk.new).seen ≡ written (D.moment disk.old).seen (pieces self.now)) }
        ensures crash { Goes (TornIn (pieces self.now)) (D.moment disk.old) (D.moment disk.new) }
        ensures cause { HasCause (D.moment disk.old).faults (D.moment disk.new).faults result }
        ensures tells { TellsMany (length (pieces self.now)) (D.moment disk.old).passing (D.moment disk.new).passing result }
        ensures how { (D.moment disk.new).how ≡ (D.moment disk.old).how };
}
