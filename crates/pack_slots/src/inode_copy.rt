ghost use Rattle.std.specs.Prelude.{◌≡◌, ◌≤◌, ◌+◌, length};
ghost use Rattle.locus_ids.specs.Sizes.{content_pages_max, slot_pages};
ghost use Rattle.pack_slots.specs.Copies.{numbers_in};

use locus_ids::ItemList;
use locus_ids::sizes::{CONTENT_PAGES, SLOT_PAGES};
use pack_layout::{Half, Slot};

/// The version of an inode that a pack has, and in which of the inode's slots it stands.
#[derive(Drop)]
pub struct InodeCopy {
    pub half: Half,
    pub slot: Slot,
    /// The numbers of the data pages that stand in its tables, in order.
    pub more: ItemList<u16>,
}

impl InodeCopy {
    /// The numbers of all pages that a content may have: those in the slot, those in its tables, and none behind them.
    pub fn numbers(&self) -> [u16; CONTENT_PAGES]
        requires { slot_pages + length self.now.more ≤ content_pages_max }
        ensures { result ≡ numbers_in self.now }
    {
        let mut numbers = [0xFFFF; CONTENT_PAGES];
        numbers[..SLOT_PAGES].copy_from_slice(&self.slot.pages);
        let end = SLOT_PAGES + self.more.len();
        numbers[SLOT_PAGES..end].copy_from_slice(self.more.as_slice());
        numbers
    }
}
