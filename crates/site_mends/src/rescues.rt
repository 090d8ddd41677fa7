// Whether a file has to be rescued in the only kept version of a directory.
ghost use Rattle.std.specs.Prelude.{◌≡◌, ◌≤◌, true, length, Err, IfErr, IfOk};
ghost use Rattle.locus_ids.specs.Sizes.{content_bytes_max};
ghost use Rattle.commit_graph.specs.Versions.{same_stamp};
ghost use Rattle.dir_format.specs.Contents.{entries_of};
ghost use Rattle.dir_reconcile.specs.Rescues.{rescue_wanted};
ghost use Rattle.site_frame.specs.of_role_steps.Views.{SiteView};
ghost use Rattle.site_frame.specs.of_role_steps.Storage.{copy_of};
ghost use Rattle.site_frame.specs.of_role_steps.Mends.{wants_rescue_in, wants_rescue_of};
ghost use Rattle.site_packs.specs.Copies.{copies_on};
ghost use Rattle.site_packs.specs.Packs.{Stand, groups_of};
ghost use Rattle.site_tables.specs.Inodes.{AreInodes};
ghost use Rattle.site_mends.specs.declared.fault.MendFault.TheVariants.{Unfit};
ghost use Rattle.site_mends.specs.Mending.{IsOffDisk, WasRead};
ghost use Rattle.site_mends.specs.Scanning.{are_past};

use crate::MendFault;
use crate::scanning::{are_surely_past, behind_all_live};
use dir_operations::dir_in;
use dir_reconcile::{KeptVectors, rescue_wanted};
use disk_model::Disk;
use locus_ids::{Bytes, FileId, NoMemory, Stamp};
use site_packs::SitePacks;
use site_tables::css_core::Css;
use site_tables::kept_vectors;
use std::alloc::Global;

/// The site's own pack holds this version, and a rescue is wanted in it. An empty directory isn't read, nor one of which it is known
/// that no entry is removed.
pub(crate) fn wants_rescue<D: Disk>(
    alloc: Global,
    table: &Css,
    file: FileId,
    stamp: Stamp,
    packs: &SitePacks,
    disk: &mut D,
) -> Result<bool, MendFault>
    requires { Stand packs.now (D.moment disk.old) }
    ensures wants { IfOk result (λ wants. (v : SiteView) → v.store.copies ≡ copies_on (groups_of packs.now) (D.moment disk.old).seen → wants ≡ wants_rescue_of table.now stamp (copy_of v.store file)) }
    ensures disk { WasRead packs.now (D.moment disk.old) (D.moment disk.new) result }
    ensures unfit { result ≡ Err Unfit → AreInodes table.now → ⊥ }
{
    if packs.is_known_live(file) {
        return Ok(false);
    }
    let Some(copy) = packs.head(file) else {
        return Ok(false);
    };
    if !same_stamp(copy.stamp, stamp) || copy.size == 0 {
        return Ok(false);
    }
    let mut content = Bytes::new(alloc);
    packs.read(disk, file, &mut content)?;
    wants_rescue_in(alloc, table, content.as_slice())
}

/// Two stamps name one version of a file.
fn same_stamp(a: Stamp, b: Stamp) -> bool
    ensures { result ≡ same_stamp a b }
{
    a.site == b.site && a.n == b.n
}

/// A rescue is wanted in a directory of this content. Where no entry is removed, none is, nor where each removal saw each version
/// that is kept of its file: then nothing is decoded.
fn wants_rescue_in(alloc: Global, table: &Css, content: &[u8]) -> Result<bool, MendFault>
    requires { length content.now ≤ content_bytes_max }
    ensures wants { IfOk result (λ wants. wants ≡ wants_rescue_in table.now content.now) }
    ensures off_disk { IfErr result IsOffDisk }
    ensures unfit { result ≡ Err Unfit → AreInodes table.now → ⊥ }
{
    let rest = behind_all_live(content);
    if rest.is_empty() {
        return Ok(false);
    }
    match kept_vectors(alloc, table)? {
        Some(kept) => Ok(wants_rescue_among(alloc, content, rest, &kept)?),
        None => Err(MendFault::Unfit),
    }
}

/// The same, where these versions are kept; no entry before the rest of the content brings about a rescue.
fn wants_rescue_among(
    alloc: Global,
    content: &[u8],
    rest: &[u8],
    kept: &KeptVectors,
) -> Result<bool, NoMemory>
    requires few { length content.now ≤ content_bytes_max }
    requires rest { are_past kept.now rest.now ≡ true → are_past kept.now content.now ≡ true }
    ensures { IfOk result (λ wants. wants ≡ rescue_wanted (entries_of content.now) kept.now) }
{
    if are_surely_past(rest, kept.as_slice()) {
        return Ok(false);
    }
    let dir = dir_in(alloc, content)?;
    Ok(rescue_wanted(&dir, kept))
}
