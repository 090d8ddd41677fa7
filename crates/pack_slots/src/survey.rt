// What a mount finds by reading.
ghost use Rattle.std.specs.Prelude.{◌≡◌, ◌+◌, ◌≤◌, length, IfOk, IfErr, OnOk};
ghost use Rattle.locus_ids.specs.Sizes.{inodes_max};
ghost use Rattle.disk_model.specs.Disk.{Goes, HasCause, TellsRead};
ghost use Rattle.disk_model.specs.Images.{Same};
ghost use Rattle.pack_layout.specs.Layout.{area_length};
ghost use Rattle.pack_slots.specs.Copies.{AreCopies, AreUses};
ghost use Rattle.pack_slots.specs.Mounting.{IsSound, IsCause, disk_answer};
ghost use Rattle.pack_slots.specs.Losing.{AreFound};

use crate::inodes::read_inodes;
use crate::superblock::is_pack_of;
use crate::tables::read_tables;
use crate::uses::{count_uses, least_shared, shared_table};
use crate::{InodeCopy, MountFault};
use disk_model::Disk;
use locus_ids::SiteId;
use locus_ids::sizes::PACK_PAGES;
use std::alloc::Global;

/// What the slots of a pack say.
#[derive(Drop)]
pub struct Survey {
    /// The version of each inode that counts, that of inode 1 first.
    pub copies: Vec<Option<InodeCopy>>,
    /// Whether the inode's other slot is open too, and then to be closed.
    pub losing: Vec<bool>,
    /// How many versions name each data page: none or one.
    pub uses: Vec<u32>,
    /// The number of data pages that no version names.
    pub free: u16,
}

/// Reads the slots of the pack of a group at a site whose area begins at `base`, and the tables of those that
/// count, each once, and finds each fault of it.
pub fn read_pack<D: Disk>(
    alloc: Global,
    disk: &mut D,
    base: u32,
    group: u8,
    site: SiteId,
) -> Result<Survey, MountFault>
    requires { base + area_length ≤ length (D.moment disk.old).seen }
    ensures sound { OnOk result (IsSound base group site (D.moment disk.old).seen) }
    ensures found { IfOk result (λ survey. AreFound base inodes_max (D.moment disk.old).seen survey.copies.items survey.losing.items) }
    ensures losing { IfOk result (λ survey. length survey.losing.items ≡ inodes_max) }
    ensures copies { IfOk result (λ survey. AreCopies survey.copies.items) }
    ensures uses { IfOk result (λ survey. AreUses survey.copies.items survey.uses.items survey.free) }
    ensures fault { IfErr result (λ fault. IsCause base group site (D.moment disk.old).seen fault) }
    ensures seen { (D.moment disk.new).seen ≡ (D.moment disk.old).seen }
    ensures crash { Goes Same (D.moment disk.old) (D.moment disk.new) }
    ensures cause { HasCause (D.moment disk.old).faults (D.moment disk.new).faults (disk_answer result) }
    ensures tells { TellsRead (D.moment disk.old).passing (D.moment disk.new).passing (disk_answer result) }
    ensures how { (D.moment disk.new).how ≡ (D.moment disk.old).how }
{
    if !is_pack_of(disk, base, group, site)? {
        return Err(MountFault::NotAPack);
    }
    let mut inodes = read_inodes(alloc, disk, base)?;
    read_tables(disk, base, &mut inodes.copies)?;
    if let Some(ino) = inodes.bad {
        return Err(MountFault::BadSlot { ino });
    }
    if let Some(table) = shared_table(&inodes.copies) {
        return Err(MountFault::SharedTable { table });
    }
    let uses = count_uses(alloc, &inodes.copies)?;
    if let Some(page) = least_shared(&uses.counts) {
        return Err(MountFault::SharedPage { page });
    }
    Ok(Survey {
        copies: inodes.copies,
        losing: inodes.losing,
        free: PACK_PAGES - uses.total as u16,
        uses: uses.counts,
    })
}
