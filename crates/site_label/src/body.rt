// What a boot writes before the gate of a half opens.
ghost use Rattle.std.specs.Prelude.{◌≡◌, ◌+◌, [], ◌∷◌};
ghost use Rattle.site_label.specs.Raising.{body_piece};

use crate::half::{Half, half_bytes};
use disk_model::{Disk, DiskFault};
use gate_switch::PieceSource;
use locus_ids::SiteId;

/// A half with a boot number, but for its gate.
#[derive(Clone, Copy)]
pub(crate) struct HalfBody {
    pub half: Half,
    pub site: SiteId,
    pub boot: u32,
}

impl PieceSource for HalfBody {
    ghost pieces = { λ b. body_piece b.half b.site b.boot ∷ [] };

    fn write_to<D: Disk>(&self, disk: &mut D) -> Result<(), DiskFault> {
        let bytes = half_bytes(self.site, self.boot);
        disk.write_at(self.half.at() + 1, &bytes[1..])
    }
}
