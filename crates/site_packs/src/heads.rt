// What a site's copies are, but for their contents.
ghost use Rattle.std.specs.Prelude.{◌≡◌, ◌<◌, ◌+◌, ◌++◌, ℕ, List, length, slice_index_or, None, IfOk, OnOk};
ghost use Rattle.std.specs.Option.{option_map, option_copied};
ghost use Rattle.locus_ids.specs.Sizes.{inodes_max, pack_pages};
ghost use Rattle.role_steps.specs.Tables.{total};
ghost use Rattle.role_steps.specs.Storage.{reported, report_of, copy_pages};
ghost use Rattle.site_packs.specs.Copies.{copies_on};
ghost use Rattle.site_packs.specs.Packs.{AreShown, groups_of, copy_at, pack_in, pack_reported, slot_in, slot_reported, slots_reported, slots_from};

use crate::SitePacks;
use crate::packs::number_of;
use inode_pack::Pack;
use locus_ids::sizes::PACK_PAGES;
use locus_ids::{FileId, NoMemory};
use pack_layout::Slot;
use std::alloc::Global;
use wire_messages::{ReportedCopies, ReportedCopy};

impl SitePacks {
    /// What the site's copy of a file is, but for its content: its kind, set, size, stamp and vector. `None` comes exactly where
    /// the site has no copy of it.
    pub fn head(&self, file: FileId) -> Option<ReportedCopy>
        ensures { (image : List ℕ) → AreShown self.now.packs image → result ≡ option_map reported (copy_at self.now image file) }
    {
        let _invariant = &self.site;
        let ino = number_of(file);
        match self.slot_of(file) {
            Some(slot) => Some(reported(ino, slot)),
            None => None,
        }
    }

    /// What the site's copies of the files of a group are, their inodes ascending.
    pub fn report(&self, alloc: Global, group: u8) -> Result<ReportedCopies, NoMemory>
        ensures { IfOk result (λ copies. (image : List ℕ) → AreShown self.now.packs image → copies ≡ report_of group (copies_on (groups_of self.now) image)) }
    {
        let _invariant = &self.site;
        let mut copies = ReportedCopies::new(alloc);
        self.report_group(group, &mut copies)?;
        Ok(copies)
    }

    /// Adds what each slot of the group's pack says.
    fn report_group(&self, group: u8, out: &mut ReportedCopies) -> Result<(), NoMemory>
        ensures { OnOk result (out.new ≡ out.old ++ pack_reported (pack_in group self.now.packs)) }
    {
        let _invariant = &self.site;
        match self.pack_of(group) {
            Some(pack) => report_pack(pack, out),
            None => Ok(()),
        }
    }

    /// The number of data pages of the group's pack that no copy has; all where the site has no pack of it.
    pub fn free_pages(&self, group: u8) -> u16
        ensures { (image : List ℕ) → AreShown self.now.packs image → result + total (copy_pages group) (copies_on (groups_of self.now) image) ≡ pack_pages }
    {
        let _invariant = &self.site;
        match self.pack_of(group) {
            Some(pack) => pack.free_pages(),
            None => PACK_PAGES,
        }
    }
}

/// What a slot says, as it is reported.
fn reported(ino: u16, slot: &Slot) -> ReportedCopy
    ensures { result ≡ slot_reported ino slot.now }
{
    ReportedCopy {
        ino,
        kind: slot.kind,
        set: slot.set,
        size: slot.size,
        stamp: slot.stamp,
        vector: slot.vector,
    }
}

/// Adds what each slot of a pack says.
fn report_pack(pack: &Pack, out: &mut ReportedCopies) -> Result<(), NoMemory>
    requires { length pack.now.copies ≡ inodes_max }
    ensures { OnOk result (out.new ≡ out.old ++ slots_from 1 pack.now.copies) }
{
    for i in 0..pack.last_ino() {
        report_slot(pack, i, out)?;
    }
    Ok(())
}

/// Adds what the slot of the inode behind this number says.
fn report_slot(pack: &Pack, i: u16, out: &mut ReportedCopies) -> Result<(), NoMemory>
    requires { i < inodes_max }
    ensures { OnOk result (out.new ≡ out.old ++ slots_reported (i + 1) (slot_in (slice_index_or pack.now.copies i None))) }
{
    match pack.copy(i + 1) {
        Some(slot) => out.push(reported(i + 1, slot)),
        None => Ok(()),
    }
}
