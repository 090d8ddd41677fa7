// Whether the pages of a new content that aren't written are those of the copy so far.
ghost use Rattle.std.specs.Prelude.{◌≡◌, ◌↔◌, ◌≤◌, ◌<◌, [], length, true, false, IfOk};
ghost use Rattle.locus_ids.specs.Sizes.{content_bytes_max};
ghost use Rattle.disk_model.specs.Disk.{Goes, HasCause, TellsRead};
ghost use Rattle.disk_model.specs.Images.{Same};
ghost use Rattle.file_content.specs.Pages.{pages_of};
ghost use Rattle.pack_slots.specs.of_inode_switch.View.{view};
ghost use Rattle.inode_pack.specs.Pack.{Stands};
ghost use Rattle.inode_pack.specs.of_new_contents.Marked.{is_marked};
ghost use Rattle.inode_pack.specs.Committing.{content_of as content_in};
ghost use Rattle.role_steps.specs.Storage.{content_of};
ghost use Rattle.site_packs.specs.Packs.{Stand, copy_at};
ghost use Rattle.site_packs.specs.Reading.{HasContent};
ghost use Rattle.pack_layout.specs.of_stored_versions.Changes.{IsKept};
ghost use Rattle.site_packs.specs.Marking.{KeepsRest};

use crate::SitePacks;
use crate::packs::number_of;
use crate::pages::{begins_page, page_count};
use disk_model::{Disk, DiskFault};
use file_content::page_of;
use inode_pack::Pack;
use locus_ids::FileId;
use locus_ids::sizes::CONTENT_PAGES;

impl SitePacks {
    /// Whether each page of a new content that isn't marked is that of the file's copy so far.
    pub(crate) fn keeps_rest<D: Disk>(
        &self,
        disk: &mut D,
        file: FileId,
        content: &[u8],
        marks: &[bool; CONTENT_PAGES],
    ) -> Result<bool, DiskFault>
        requires stands { Stand self.now (D.moment disk.old) }
        requires few { length content.now ≤ content_bytes_max }
        ensures kept { IfOk result (λ kept. (kept ≡ true) ↔ KeepsRest (content_of (copy_at self.now (D.moment disk.old).seen file)) content.now marks.now) }
        ensures seen { (D.moment disk.new).seen ≡ (D.moment disk.old).seen }
        ensures stands { Stand self.now (D.moment disk.new) }
        ensures crash { Goes Same (D.moment disk.old) (D.moment disk.new) }
        ensures cause { HasCause (D.moment disk.old).faults (D.moment disk.new).faults result }
        ensures tells { TellsRead (D.moment disk.old).passing (D.moment disk.new).passing result }
        ensures how { (D.moment disk.new).how ≡ (D.moment disk.old).how }
    {
        let _invariant = &self.site;
        let ino = number_of(file);
        let Some(pack) = self.pack_of(file.group) else {
            return Ok(are_all_marked(content, marks));
        };
        let Some(slot) = pack.copy(ino) else {
            return Ok(are_all_marked(content, marks));
        };
        keeps_pages(pack, disk, ino, slot.size, content, marks)
    }
}

/// Whether each page of a content is marked, so that an empty content before may be kept.
fn are_all_marked(content: &[u8], marks: &[bool; CONTENT_PAGES]) -> bool
    requires { length content.now ≤ content_bytes_max }
    ensures { (result ≡ true) ↔ KeepsRest [] content.now marks.now }
{
    for page in 0..page_count(content.len() as u32) {
        if !marks[usize::from(page)] {
            return false;
        }
    }
    true
}

/// Whether each page of a new content that isn't marked is that of the inode so far.
fn keeps_pages<D: Disk>(
    pack: &Pack,
    disk: &mut D,
    ino: u16,
    size: u32,
    content: &[u8],
    marks: &[bool; CONTENT_PAGES],
) -> Result<bool, DiskFault>
    requires stands { Stands pack.now (D.moment disk.old) }
    requires content { HasContent pack.now ino size (D.moment disk.old).seen }
    requires few { length content.now ≤ content_bytes_max }
    ensures kept { IfOk result (λ kept. (kept ≡ true) ↔ KeepsRest (content_in (view (D.moment disk.old).seen pack.now.base ino)) content.now marks.now) }
    ensures seen { (D.moment disk.new).seen ≡ (D.moment disk.old).seen }
    ensures crash { Goes Same (D.moment disk.old) (D.moment disk.new) }
    ensures cause { HasCause (D.moment disk.old).faults (D.moment disk.new).faults result }
    ensures tells { TellsRead (D.moment disk.old).passing (D.moment disk.new).passing result }
    ensures how { (D.moment disk.new).how ≡ (D.moment disk.old).how }
{
    for page in 0..page_count(content.len() as u32) {
        if !keeps_page(pack, disk, ino, size, content, marks, page)? {
            return Ok(false);
        }
    }
    Ok(true)
}

/// Whether a page of a new content is marked or that of the inode so far.
fn keeps_page<D: Disk>(
    pack: &Pack,
    disk: &mut D,
    ino: u16,
    size: u32,
    content: &[u8],
    marks: &[bool; CONTENT_PAGES],
    page: u16,
) -> Result<bool, DiskFault>
    requires stands { Stands pack.now (D.moment disk.old) }
    requires content { HasContent pack.now ino size (D.moment disk.old).seen }
    requires few { length content.now ≤ content_bytes_max }
    requires inside { page < pages_of (length content.now) }
    ensures kept { IfOk result (λ kept. (kept ≡ true) ↔ (is_marked marks.now page ≡ false → IsKept (content_in (view (D.moment disk.old).seen pack.now.base ino)) content.now page)) }
    ensures seen { (D.moment disk.new).seen ≡ (D.moment disk.old).seen }
    ensures stands { Stands pack.now (D.moment disk.new) }
    ensures crash { Goes Same (D.moment disk.old) (D.moment disk.new) }
    ensures cause { HasCause (D.moment disk.old).faults (D.moment disk.new).faults result }
    ensures tells { TellsRead (D.moment disk.old).passing (D.moment disk.new).passing result }
    ensures how { (D.moment disk.new).how ≡ (D.moment disk.old).how }
{
    if marks[usize::from(page)] {
        return Ok(true);
    }
    let bytes = page_of(content, usize::from(page));
    begins_page(pack, disk, ino, size, page, bytes)
}
