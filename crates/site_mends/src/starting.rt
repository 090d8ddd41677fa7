// The mends that start, group by group.
ghost use Rattle.std.specs.Prelude.{◌≡◌, [], Err, IfOk, OnOk};
ghost use Rattle.std.specs.List.{AllByRecursion};
ghost use Rattle.site_frame.specs.of_role_steps.Views.{SiteView};
ghost use Rattle.site_frame.specs.of_role_steps.Epochs.{with_users};
ghost use Rattle.site_frame.specs.of_role_steps.Tables.{first_that};
ghost use Rattle.site_frame.specs.of_role_steps.Mends.{starts_mend, starts_mends_in, wants_mend};
ghost use Rattle.site_frame.specs.of_role_steps.Versions.{file_row};
ghost use Rattle.site_packs.specs.Packs.{Stand};
ghost use Rattle.site_tables.specs.of_using_site.Steps.{Gives};
ghost use Rattle.site_tables.specs.Inodes.{AreInodes};
ghost use Rattle.css_versions.specs.Lists.{found_first, found_rows};
ghost use Rattle.site_mends.specs.declared.fault.MendFault.TheVariants.{Unfit};
ghost use Rattle.site_mends.specs.Mending.{file_in, IsSeen, WasRead};

use crate::MendFault;
use crate::wanting::{file_of, wants_mend};
use css_versions::Listed;
use disk_model::Disk;
use locus_ids::FileId;
use site_frame::SiteFrame;
use site_packs::SitePacks;
use site_tables::css_core::Css;
use site_tables::using_site::UsingSite;
use std::alloc::Global;
use wire_messages::Outbox;

/// Starts a mend in each of these groups that wants one, ascending. `Unfit` comes only where a number in a table is no inode's.
pub fn start_mends<D: Disk>(
    alloc: Global,
    tables: &[Css],
    frame: &SiteFrame,
    packs: &SitePacks,
    users: &mut UsingSite,
    disk: &mut D,
    out: &mut Outbox,
) -> Result<(), MendFault>
    requires { Stand packs.now (D.moment disk.old) }
    ensures gives { OnOk result ((v : SiteView) → IsSeen v packs.now (D.moment disk.old).seen users.old → Gives (starts_mends_in frame.now tables.now v) (with_users v users.new) out.old out.new) }
    ensures disk { WasRead packs.now (D.moment disk.old) (D.moment disk.new) result }
    ensures unfit { result ≡ Err Unfit → AllByRecursion AreInodes tables.now → ⊥ }
{
    let [table, later @ ..] = tables else {
        return Ok(());
    };
    start_mend(alloc, table, frame, packs, users, disk, out)?;
    start_mends(alloc, later, frame, packs, users, disk, out)?;
    Ok(())
}

/// Starts a mend in a group, where none waits: that of the least inode which wants one.
fn start_mend<D: Disk>(
    alloc: Global,
    table: &Css,
    frame: &SiteFrame,
    packs: &SitePacks,
    users: &mut UsingSite,
    disk: &mut D,
    out: &mut Outbox,
) -> Result<(), MendFault>
    requires { Stand packs.now (D.moment disk.old) }
    ensures gives { OnOk result ((v : SiteView) → IsSeen v packs.now (D.moment disk.old).seen users.old → Gives (starts_mend frame.now table.now v) (with_users v users.new) out.old out.new) }
    ensures disk { WasRead packs.now (D.moment disk.old) (D.moment disk.new) result }
    ensures unfit { result ≡ Err Unfit → AreInodes table.now → ⊥ }
{
    if !table.started() || users.has_mend_in(table.group()) {
        return Ok(());
    }
    match first_wanting(alloc, table, packs, users, disk)? {
        None => Ok(()),
        Some(file) => {
            users.start_mend(frame, file, out)?;
            Ok(())
        }
    }
}

/// The directory of the least inode in a group that wants a mend.
fn first_wanting<D: Disk>(
    alloc: Global,
    table: &Css,
    packs: &SitePacks,
    users: &UsingSite,
    disk: &mut D,
) -> Result<Option<FileId>, MendFault>
    requires { Stand packs.now (D.moment disk.old) }
    ensures found { IfOk result (λ found. (v : SiteView) → IsSeen v packs.now (D.moment disk.old).seen users.now → found ≡ file_in table.now (first_that (wants_mend v table.now) table.now.files)) }
    ensures disk { WasRead packs.now (D.moment disk.old) (D.moment disk.new) result }
    ensures unfit { result ≡ Err Unfit → AreInodes table.now → ⊥ }
{
    first_wanting_of(alloc, table, table.directories(), packs, users, disk)
}

/// The one of the least inode among these that wants a mend.
fn first_wanting_of<D: Disk>(
    alloc: Global,
    table: &Css,
    directories: &[Listed],
    packs: &SitePacks,
    users: &UsingSite,
    disk: &mut D,
) -> Result<Option<FileId>, MendFault>
    requires { Stand packs.now (D.moment disk.old) }
    ensures found { IfOk result (λ found. (v : SiteView) → IsSeen v packs.now (D.moment disk.old).seen users.now → found ≡ file_in table.now (first_that (wants_mend v table.now) (found_rows table.now.files directories.now))) }
    ensures disk { WasRead packs.now (D.moment disk.old) (D.moment disk.new) result }
    ensures unfit { result ≡ Err Unfit → AreInodes table.now → ⊥ }
{
    for one in directories {
        let found = wanting_at(alloc, table, one.ino, packs, users, disk)?;
        if found.is_some() {
            return Ok(found);
        }
    }
    Ok(None)
}

/// The file of this inode, where it is known and wants a mend.
fn wanting_at<D: Disk>(
    alloc: Global,
    table: &Css,
    ino: u16,
    packs: &SitePacks,
    users: &UsingSite,
    disk: &mut D,
) -> Result<Option<FileId>, MendFault>
    requires { Stand packs.now (D.moment disk.old) }
    ensures found { IfOk result (λ found. (v : SiteView) → IsSeen v packs.now (D.moment disk.old).seen users.now → found ≡ file_in table.now (first_that (wants_mend v table.now) (found_first (file_row table.now ino) []))) }
    ensures disk { WasRead packs.now (D.moment disk.old) (D.moment disk.new) result }
    ensures unfit { result ≡ Err Unfit → AreInodes table.now → ⊥ }
{
    let Some(file) = table.file(ino) else {
        return Ok(None);
    };
    if wants_mend(alloc, table, file, packs, users, disk)? {
        return Ok(Some(file_of(table, file)));
    }
    Ok(None)
}
