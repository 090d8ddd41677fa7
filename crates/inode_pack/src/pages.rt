// The data pages of a pack.
ghost use Rattle.std.specs.Prelude.{◌≡◌, ◌<◌, ◌≤◌, ◌+◌, ℕ, List, length, slice_index, Some, OnOk};
ghost use Rattle.locus_ids.specs.Sizes.{page_bytes, content_pages_max, slot_pages, pack_pages};
ghost use Rattle.disk_model.specs.Disk.{Goes, HasCause, TellsRead};
ghost use Rattle.disk_model.specs.Images.{bytes_at, Same};
ghost use Rattle.pack_layout.specs.Layout.{page_at};
ghost use Rattle.inode_switch.specs.View.{Version, view};
ghost use Rattle.pack_slots.specs.Copies.{copy_of, numbers_in};
ghost use Rattle.inode_pack.specs.Pack.{Stands, HasPage, number_in, IsPageOf};

use crate::Pack;
use disk_model::{Disk, DiskFault};
use locus_ids::sizes::{PAGE_BYTES, SLOT_PAGES};
use pack_layout::page_at;
use pack_slots::InodeCopy;

impl Pack {
    /// Reads a page of the content of an inode's version here, from 0. Bytes of the last page past the size have no meaning.
    pub fn read_page<D: Disk>(
        &self,
        disk: &mut D,
        ino: u16,
        page: u16,
        buf: &mut [u8; PAGE_BYTES],
    ) -> Result<(), DiskFault>
        requires stands { Stands self.now (D.moment disk.old) }
        requires page { HasPage self.now ino page }
        ensures bytes { OnOk result (buf.new ≡ bytes_at (D.moment disk.old).seen (page_at self.now.base (number_in (copy_of self.now.copies ino) page)) page_bytes) }
        ensures content { OnOk result ((version : Version) → view (D.moment disk.old).seen self.now.base ino ≡ Some version → IsPageOf version.content page buf.new) }
        ensures seen { (D.moment disk.new).seen ≡ (D.moment disk.old).seen }
        ensures stands { Stands self.now (D.moment disk.new) }
        ensures crash { Goes Same (D.moment disk.old) (D.moment disk.new) }
        ensures cause { HasCause (D.moment disk.old).faults (D.moment disk.new).faults result }
        ensures tells { TellsRead (D.moment disk.old).passing (D.moment disk.new).passing result }
        ensures how { (D.moment disk.new).how ≡ (D.moment disk.old).how }
    {
        let _len = disk.len();
        let number = self.number_of(ino, page);
        disk.read(page_at(self.base, number), buf)
    }

    /// The number of the data page where a page of an inode's content stands.
    fn number_of(&self, ino: u16, page: u16) -> u16
        requires { HasPage self.now ino page }
        ensures number { result ≡ number_in (copy_of self.now.copies ino) page }
        ensures inside { result < pack_pages }
    {
        match self.inode_copy(ino) {
            Some(copy) => page_number(copy, page),
            None => 0,
        }
    }
}

/// The number of a page of a copy: one of the slot, or one of those that stand in its tables, and none behind them.
pub fn page_number(copy: &InodeCopy, page: u16) -> u16
    requires most { page < content_pages_max }
    requires front { length copy.now.slot.pages ≡ slot_pages }
    requires few { slot_pages + length copy.now.more ≤ content_pages_max }
    ensures { result ≡ slice_index (numbers_in copy.now) page }
{
    let page = usize::from(page);
    if page < SLOT_PAGES {
        return copy.slot.pages[page];
    }
    match copy.more.get(page - SLOT_PAGES) {
        Some(number) => *number,
        None => 0xFFFF,
    }
}
