// Contents and their pages are read.
ghost use Rattle.std.specs.Prelude.{◌≡◌, ◌≤◌, length, OnOk, IfOk};
ghost use Rattle.locus_ids.specs.Sizes.{content_bytes_max};
ghost use Rattle.disk_model.specs.Disk.{Goes, HasCause, TellsRead};
ghost use Rattle.disk_model.specs.Images.{Same};
ghost use Rattle.file_content.specs.Pages.{page_of};
ghost use Rattle.role_steps.specs.Storage.{content_of};
ghost use Rattle.site_packs.specs.Packs.{Stand, copy_at};
ghost use Rattle.site_packs.specs.Committing.{read_answer};

use crate::packs::number_of;
use crate::pages::{load_page, read_content};
use crate::{ReadFault, SitePacks};
use disk_model::Disk;
use locus_ids::{Bytes, FileId};
use std::alloc::Global;

impl SitePacks {
    /// Reads the whole content of the site's copy of a file, in place of what `out` has; nothing where there is no copy.
    pub fn read<D: Disk>(
        &self,
        disk: &mut D,
        file: FileId,
        out: &mut Bytes,
    ) -> Result<(), ReadFault>
        requires stands { Stand self.now (D.moment disk.old) }
        ensures content { OnOk result (out.new ≡ content_of (copy_at self.now (D.moment disk.old).seen file)) }
        ensures short { OnOk result (length out.new ≤ content_bytes_max) }
        ensures seen { (D.moment disk.new).seen ≡ (D.moment disk.old).seen }
        ensures stands { Stand self.now (D.moment disk.new) }
        ensures crash { Goes Same (D.moment disk.old) (D.moment disk.new) }
        ensures cause { HasCause (D.moment disk.old).faults (D.moment disk.new).faults (read_answer result) }
        ensures tells { TellsRead (D.moment disk.old).passing (D.moment disk.new).passing (read_answer result) }
        ensures how { (D.moment disk.new).how ≡ (D.moment disk.old).how }
    {
        let _invariant = &self.site;
        let ino = number_of(file);
        out.clear();
        let Some(pack) = self.pack_of(file.group) else {
            return Ok(());
        };
        let Some(slot) = pack.copy(ino) else {
            return Ok(());
        };
        read_content(pack, disk, ino, slot.size, out)
    }

    /// Reads a page of the content of the site's copy of a file, from 0; no bytes where the content has no such page.
    pub fn read_page<D: Disk>(
        &self,
        alloc: Global,
        disk: &mut D,
        file: FileId,
        page: u16,
    ) -> Result<Bytes, ReadFault>
        requires stands { Stand self.now (D.moment disk.old) }
        ensures page { IfOk result (λ bytes. bytes ≡ page_of (content_of (copy_at self.now (D.moment disk.old).seen file)) page) }
        ensures seen { (D.moment disk.new).seen ≡ (D.moment disk.old).seen }
        ensures stands { Stand self.now (D.moment disk.new) }
        ensures crash { Goes Same (D.moment disk.old) (D.moment disk.new) }
        ensures cause { HasCause (D.moment disk.old).faults (D.moment disk.new).faults (read_answer result) }
        ensures tells { TellsRead (D.moment disk.old).passing (D.moment disk.new).passing (read_answer result) }
        ensures how { (D.moment disk.new).how ≡ (D.moment disk.old).how }
    {
        let _invariant = &self.site;
        let ino = number_of(file);
        let Some(pack) = self.pack_of(file.group) else {
            return Ok(Bytes::new(alloc));
        };
        let Some(slot) = pack.copy(ino) else {
            return Ok(Bytes::new(alloc));
        };
        load_page(alloc, pack, disk, ino, slot.size, page)
    }
}
