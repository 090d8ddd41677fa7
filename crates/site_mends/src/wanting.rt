// Which directories want a mend.
ghost use Rattle.std.specs.Prelude.{◌≡◌, Err, IfOk};
ghost use Rattle.site_frame.specs.of_role_steps.Views.{SiteView};
ghost use Rattle.site_frame.specs.of_role_steps.Mends.{may_mend, row_file, wants_mend};
ghost use Rattle.site_packs.specs.Packs.{Stand};
ghost use Rattle.site_tables.specs.Inodes.{AreInodes};
ghost use Rattle.site_mends.specs.declared.fault.MendFault.TheVariants.{Unfit};
ghost use Rattle.site_mends.specs.Mending.{IsSeen, WasRead};

use crate::MendFault;
use crate::rescues::wants_rescue;
use css_versions::KnownFile;
use disk_model::Disk;
use locus_ids::{FileId, Kind};
use site_packs::SitePacks;
use site_tables::css_core::Css;
use site_tables::using_site::UsingSite;
use std::alloc::Global;

/// The name of a file of the group.
pub(crate) fn file_of(table: &Css, file: &KnownFile) -> FileId
    ensures { result ≡ row_file table.now file.now }
{
    FileId {
        group: table.group(),
        ino: file.ino(),
    }
}

/// It is a directory that may be mended and wants it.
pub(crate) fn wants_mend<D: Disk>(
    alloc: Global,
    table: &Css,
    file: &KnownFile,
    packs: &SitePacks,
    users: &UsingSite,
    disk: &mut D,
) -> Result<bool, MendFault>
    requires { Stand packs.now (D.moment disk.old) }
    ensures wants { IfOk result (λ wants. (v : SiteView) → IsSeen v packs.now (D.moment disk.old).seen users.now → wants ≡ wants_mend v table.now file.now) }
    ensures disk { WasRead packs.now (D.moment disk.old) (D.moment disk.new) result }
    ensures unfit { result ≡ Err Unfit → AreInodes table.now → ⊥ }
{
    if file.kind() == Kind::File {
        return Ok(false);
    }
    if !may_mend(table, file_of(table, file), users) {
        return Ok(false);
    }
    match file.kept() {
        [] => Ok(false),
        [one] => wants_rescue(alloc, table, file_of(table, file), one.stamp, packs, disk),
        [_, _, ..] => Ok(true),
    }
}

/// No instance of the directory is open, and its mend wasn't refused for want of room in this epoch.
fn may_mend(table: &Css, file: FileId, users: &UsingSite) -> bool
    ensures { (v : SiteView) → v.users ≡ users.now → result ≡ may_mend v table.now file }
{
    !(table.is_open(file) || users.is_hopeless(file))
}
