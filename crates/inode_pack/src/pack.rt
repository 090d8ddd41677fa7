ghost use Rattle.std.specs.Prelude.{◌≡◌, ◌<◌, ◌≤◌, ◌+◌, ℕ, length, None, IfSome};
ghost use Rattle.std.specs.Option.{option_copied, option_map};
ghost use Rattle.locus_ids.specs.Sizes.{inodes_max, pack_pages};
ghost use Rattle.pack_slots.specs.Copies.{copy_of, named_pages, IsCopy};

use crate::data_pages::DataPages;
use locus_ids::SiteId;
use pack_layout::Slot;
use pack_slots::InodeCopy;
use std::marker::Model;

/// The part of a filegroup that a site stores, in an area of its disk. It knows the newest version of each inode there, and
/// which data pages these have. Contracts see where the area begins, the group, the site and the copies.
pub struct Pack {
    pub(crate) base: u32,
    pub(crate) group: u8,
    pub(crate) site: SiteId,
    /// The copy of each inode, that of inode 1 first.
    pub(crate) copies: Vec<Option<InodeCopy>>,
    /// The greatest inode with a copy, or 0.
    pub(crate) last: u16,
    /// Which data pages these name.
    pub(crate) pages: DataPages,
}

// Taken apart in one place: where a pack is dropped, the prover sees one call.
impl Drop for Pack {
    fn drop(self) {
        let Pack {
            base: _,
            group: _,
            site: _,
            copies: _,
            last: _,
            pages: _,
        } = self;
    }
}

impl Model for Pack {
    ghost use Rattle.inode_pack.specs.Pack.{PackState};
    ghost use Rattle.pack_slots.specs.Copies.{AreCopies, AreUses};
    ghost use Rattle.inode_pack.specs.Rows.{NoneAbove};

    ghost Value = { PackState };

    ghost view = { λ p. record { base = p.base; group = p.group; site = p.site; copies = p.copies.items } };

    ghost invariant = { λ p. AreCopies p.copies.items × AreUses p.copies.items p.pages.uses p.pages.free × NoneAbove p.last p.copies.items };
}

impl Pack {
    /// The group of which this is a pack.
    pub fn group(&self) -> u8
        ensures { result ≡ self.now.group }
    {
        self.group
    }

    /// The version of an inode, or `None` exactly where this pack has none, as for each number that is no inode.
    pub fn copy(&self, ino: u16) -> Option<&Slot>
        ensures value { option_copied result ≡ option_map (λ copy. copy.slot) (copy_of self.now.copies ino) }
        ensures own { IfSome (copy_of self.now.copies ino) (λ copy. IsCopy ino copy) }
    {
        match self.inode_copy(ino) {
            Some(copy) => Some(&copy.slot),
            None => None,
        }
    }

    /// A number above which no inode has a copy.
    pub fn last_ino(&self) -> u16
        ensures most { result ≤ inodes_max }
        ensures none { (ino : ℕ) → result < ino → copy_of self.now.copies ino ≡ None }
    {
        self.last
    }

    /// The copy of an inode, as far as there is one.
    pub(crate) fn inode_copy(&self, ino: u16) -> Option<&InodeCopy>
        ensures value { option_copied result ≡ copy_of self.now.copies ino }
        ensures own { IfSome (copy_of self.now.copies ino) (λ copy. IsCopy ino copy) }
    {
        if ino == 0 {
            return None;
        }
        match self.copies.get(usize::from(ino) - 1) {
            Some(Some(copy)) => Some(copy),
            _ => None,
        }
    }

    /// The number of data pages that no version here names.
    pub fn free_pages(&self) -> u16
        ensures { result + length (named_pages self.now.copies) ≡ pack_pages }
    {
        self.pages.free()
    }
}
