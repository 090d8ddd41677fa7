// The content of an inode, page by page.
ghost use Rattle.std.specs.Prelude.{◌≡◌, ◌↔◌, ◌≤◌, ◌<◌, ◌+◌, ◌-◌, ◌*◌, ◌++◌, true, min, take, length, OnOk, IfOk};
ghost use Rattle.locus_ids.specs.Sizes.{content_bytes_max, page_bytes, content_pages_max};
ghost use Rattle.disk_model.specs.Disk.{Goes, HasCause, TellsRead};
ghost use Rattle.disk_model.specs.Images.{Same};
ghost use Rattle.file_content.specs.Pages.{pages_of, page_of};
ghost use Rattle.pack_slots.specs.of_inode_switch.View.{view};
ghost use Rattle.inode_pack.specs.Pack.{Stands};
ghost use Rattle.inode_pack.specs.Committing.{content_of};
ghost use Rattle.site_packs.specs.Reading.{HasContent};
ghost use Rattle.site_packs.specs.Committing.{read_answer};

use crate::ReadFault;
use disk_model::{Disk, DiskFault};
use inode_pack::Pack;
use locus_ids::sizes::PAGE_BYTES;
use locus_ids::{Bytes, NoMemory};
use std::alloc::Global;

/// The number of pages of a content.
pub(crate) fn page_count(size: u32) -> u16
    requires { size ≤ content_bytes_max }
    ensures pages { result ≡ pages_of size }
    ensures most { result ≤ content_pages_max }
{
    ((size + (PAGE_BYTES as u32 - 1)) / PAGE_BYTES as u32) as u16
}

/// Adds the bytes of a page that its content of this size has.
fn append_page(out: &mut Bytes, page: &[u8; PAGE_BYTES], size: u32, i: u16) -> Result<(), NoMemory>
    requires { page_bytes * i < size }
    ensures { OnOk result (out.new ≡ out.old ++ take (min page_bytes (size - page_bytes * i)) page.now) }
{
    let rest = size - PAGE_BYTES as u32 * u32::from(i);
    let len = rest.min(PAGE_BYTES as u32) as usize;
    out.append(&page[..len])
}

/// Adds the whole content of an inode.
pub(crate) fn read_content<D: Disk>(
    pack: &Pack,
    disk: &mut D,
    ino: u16,
    size: u32,
    out: &mut Bytes,
) -> Result<(), ReadFault>
    requires stands { Stands pack.now (D.moment disk.old) }
    requires content { HasContent pack.now ino size (D.moment disk.old).seen }
    ensures content { OnOk result (out.new ≡ out.old ++ content_of (view (D.moment disk.old).seen pack.now.base ino)) }
    ensures seen { (D.moment disk.new).seen ≡ (D.moment disk.old).seen }
    ensures crash { Goes Same (D.moment disk.old) (D.moment disk.new) }
    ensures cause { HasCause (D.moment disk.old).faults (D.moment disk.new).faults (read_answer result) }
    ensures tells { TellsRead (D.moment disk.old).passing (D.moment disk.new).passing (read_answer result) }
    ensures how { (D.moment disk.new).how ≡ (D.moment disk.old).how }
{
    let mut page = [0; PAGE_BYTES];
    for i in 0..page_count(size) {
        pack.read_page(disk, ino, i, &mut page)?;
        append_page(out, &page, size, i)?;
    }
    Ok(())
}

/// The bytes of a page of the content of an inode; none of a page past its end.
pub(crate) fn load_page<D: Disk>(
    alloc: Global,
    pack: &Pack,
    disk: &mut D,
    ino: u16,
    size: u32,
    page: u16,
) -> Result<Bytes, ReadFault>
    requires stands { Stands pack.now (D.moment disk.old) }
    requires content { HasContent pack.now ino size (D.moment disk.old).seen }
    ensures page { IfOk result (λ bytes. bytes ≡ page_of (content_of (view (D.moment disk.old).seen pack.now.base ino)) page) }
    ensures seen { (D.moment disk.new).seen ≡ (D.moment disk.old).seen }
    ensures crash { Goes Same (D.moment disk.old) (D.moment disk.new) }
    ensures cause { HasCause (D.moment disk.old).faults (D.moment disk.new).faults (read_answer result) }
    ensures tells { TellsRead (D.moment disk.old).passing (D.moment disk.new).passing (read_answer result) }
    ensures how { (D.moment disk.new).how ≡ (D.moment disk.old).how }
{
    let mut bytes = Bytes::new(alloc);
    if PAGE_BYTES as u32 * u32::from(page) >= size {
        return Ok(bytes);
    }
    let mut buf = [0; PAGE_BYTES];
    pack.read_page(disk, ino, page, &mut buf)?;
    append_page(&mut bytes, &buf, size, page)?;
    Ok(bytes)
}

/// Whether a page of the content of an inode begins with these bytes.
pub(crate) fn begins_page<D: Disk>(
    pack: &Pack,
    disk: &mut D,
    ino: u16,
    size: u32,
    page: u16,
    bytes: &[u8],
) -> Result<bool, DiskFault>
    requires stands { Stands pack.now (D.moment disk.old) }
    requires content { HasContent pack.now ino size (D.moment disk.old).seen }
    requires some { 1 ≤ length bytes.now }
    requires few { length bytes.now ≤ page_bytes }
    ensures begins { IfOk result (λ begins. (begins ≡ true) ↔ (take (length bytes.now) (page_of (content_of (view (D.moment disk.old).seen pack.now.base ino)) page) ≡ bytes.now)) }
    ensures seen { (D.moment disk.new).seen ≡ (D.moment disk.old).seen }
    ensures crash { Goes Same (D.moment disk.old) (D.moment disk.new) }
    ensures cause { HasCause (D.moment disk.old).faults (D.moment disk.new).faults result }
    ensures tells { TellsRead (D.moment disk.old).passing (D.moment disk.new).passing result }
    ensures how { (D.moment disk.new).how ≡ (D.moment disk.old).how }
{
    if PAGE_BYTES as u32 * u32::from(page) + bytes.len() as u32 > size {
        return Ok(false);
    }
    let mut buf = [0; PAGE_BYTES];
    pack.read_page(disk, ino, page, &mut buf)?;
    Ok(&buf[..bytes.len()] == bytes)
}
