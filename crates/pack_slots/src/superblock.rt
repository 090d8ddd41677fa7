// The bytes that an area of a pack begins with.
ghost use Rattle.std.specs.Prelude.{◌≡◌, ◌+◌, ◌≤◌, ◌↔◌, length, IsTrue, IfOk};
ghost use Rattle.disk_model.specs.Disk.{Goes, HasCause, TellsRead};
ghost use Rattle.disk_model.specs.Images.{Same};
ghost use Rattle.pack_layout.specs.Layout.{layout};
ghost use Rattle.pack_slots.specs.Copies.{superblock, IsPackOf};

use disk_model::{Disk, DiskFault};
use locus_ids::SiteId;
use pack_layout::layout::SUPERBLOCK_LENGTH;

/// The first bytes of the area of a pack.
pub(crate) fn superblock(group: u8, site: SiteId) -> [u8; SUPERBLOCK_LENGTH]
    ensures { result ≡ superblock group site }
{
    let mut block = [0; SUPERBLOCK_LENGTH];
    block[..8].copy_from_slice(b"LOCUSPK2");
    block[8] = group;
    block[9] = site.get();
    block
}

/// Whether the area from `base` is that of a pack of this group at this site.
pub(crate) fn is_pack_of<D: Disk>(
    disk: &mut D,
    base: u32,
    group: u8,
    site: SiteId,
) -> Result<bool, DiskFault>
    requires { base + layout.superblock_length ≤ length (D.moment disk.old).seen }
    ensures is { IfOk result (λ is. IsTrue is ↔ IsPackOf base group site (D.moment disk.old).seen) }
    ensures seen { (D.moment disk.new).seen ≡ (D.moment disk.old).seen }
    ensures crash { Goes Same (D.moment disk.old) (D.moment disk.new) }
    ensures cause { HasCause (D.moment disk.old).faults (D.moment disk.new).faults result }
    ensures tells { TellsRead (D.moment disk.old).passing (D.moment disk.new).passing result }
    ensures how { (D.moment disk.new).how ≡ (D.moment disk.old).how }
{
    let mut block = [0; SUPERBLOCK_LENGTH];
    disk.read(base, &mut block)?;
    Ok(block == superblock(group, site))
}
