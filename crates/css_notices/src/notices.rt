ghost use Rattle.std.specs.Prelude.{◌≡◌, ◌++◌, ◌∷◌, [], map, filter, not, OnOk};
ghost use Rattle.std.specs.List.{flat_map};
ghost use Rattle.role_steps.specs.Notices.{notice, file_notices, row_notices};
ghost use Rattle.role_steps.specs.Tables.{row};
ghost use Rattle.role_steps.specs.Views.{members_of};
ghost use Rattle.role_steps.specs.Versions.{is_among, holders_of, chosen_site, row_ino};
ghost use Rattle.css_versions.specs.Lists.{found_rows};
ghost use Rattle.css_notices.specs.Noticed.{notices_to, notices_from, notices_kept};

use crate::members::members_of;
use css_versions::{Files, KnownFile, Listed, choose, is_among};
use locus_ids::{FileId, NoMemory, SiteId};
use role_steps::VersionRow;
use site_frame::SiteFrame;
use std::alloc::Global;
use wire_messages::{Body, Outbox};

/// Notifies a member of the version of a file that this holder has.
fn notify(
    frame: &SiteFrame,
    group: u8,
    file: &KnownFile,
    version: &VersionRow,
    holder: SiteId,
    to: SiteId,
    out: &mut Outbox,
) -> Result<(), NoMemory>
    ensures packets { OnOk result (out.new.packets ≡ out.old.packets ++ notice frame.now group file.now version.now holder to ∷ []) }
    ensures records { OnOk result (out.new.records ≡ out.old.records) }
{
    let body = Body::Notify {
        file: FileId {
            group,
            ino: file.ino(),
        },
        kind: file.kind(),
        set: file.set(),
        size: version.size,
        stamp: version.stamp,
        vector: version.vector,
        holder,
    };
    out.send(frame.packet(to, body))
}

/// Notifies those of the members that aren't among the holders.
fn notify_others(
    frame: &SiteFrame,
    group: u8,
    file: &KnownFile,
    version: &VersionRow,
    holder: SiteId,
    holders: &[SiteId],
    members: &[SiteId],
    out: &mut Outbox,
) -> Result<(), NoMemory>
    ensures packets { OnOk result (out.new.packets ≡ out.old.packets ++ map (notice frame.now group file.now version.now holder) (filter (λ s. not (is_among s holders.now)) members.now)) }
    ensures records { OnOk result (out.new.records ≡ out.old.records) }
{
    for member in members {
        if !is_among(*member, holders) {
            notify(frame, group, file, version, holder, *member, out)?;
        }
    }
    Ok(())
}

/// Notifies those of the members of the file's set that aren't among the holders.
fn notify_members(
    alloc: Global,
    frame: &SiteFrame,
    group: u8,
    file: &KnownFile,
    version: &VersionRow,
    holder: SiteId,
    holders: &[SiteId],
    out: &mut Outbox,
) -> Result<(), NoMemory>
    ensures packets { OnOk result (out.new.packets ≡ out.old.packets ++ notices_to frame.now group file.now version.now holder holders.now) }
    ensures records { OnOk result (out.new.records ≡ out.old.records) }
{
    let members = members_of(alloc, frame, file.set())?;
    notify_found(
        frame,
        group,
        file,
        version,
        holder,
        holders,
        members.as_slice(),
        out,
    )
}

/// Notifies those of the members of the file's set, which are given, that aren't among the holders.
fn notify_found(
    frame: &SiteFrame,
    group: u8,
    file: &KnownFile,
    version: &VersionRow,
    holder: SiteId,
    holders: &[SiteId],
    members: &[SiteId],
    out: &mut Outbox,
) -> Result<(), NoMemory>
    requires { members.now ≡ members_of frame.now.members file.now.set }
    ensures packets { OnOk result (out.new.packets ≡ out.old.packets ++ notices_to frame.now group file.now version.now holder holders.now) }
    ensures records { OnOk result (out.new.records ≡ out.old.records) }
{
    notify_others(frame, group, file, version, holder, holders, members, out)
}

/// Notifies the lagging members of the only kept version of a file: as holder the site names itself where it holds it, else
/// the lowest-numbered member that does.
fn notify_version(
    alloc: Global,
    frame: &SiteFrame,
    group: u8,
    file: &KnownFile,
    version: &VersionRow,
    out: &mut Outbox,
) -> Result<(), NoMemory>
    ensures packets { OnOk result (out.new.packets ≡ out.old.packets ++ notices_from frame.now group file.now version.now (chosen_site frame.now.me frame.now.me (holders_of file.now version.now.stamp)) (holders_of file.now version.now.stamp)) }
    ensures records { OnOk result (out.new.records ≡ out.old.records) }
{
    let holders = file.holders(version.stamp)?;
    match choose(frame.me, frame.me, holders.as_slice()) {
        Some(holder) => notify_members(
            alloc,
            frame,
            group,
            file,
            version,
            holder,
            holders.as_slice(),
            out,
        ),
        None => Ok(()),
    }
}

/// Notifies the lagging members of a file that has these kept versions: a file with several isn't propagated.
fn notify_kept(
    alloc: Global,
    frame: &SiteFrame,
    group: u8,
    file: &KnownFile,
    kept: &[VersionRow],
    out: &mut Outbox,
) -> Result<(), NoMemory>
    ensures packets { OnOk result (out.new.packets ≡ out.old.packets ++ notices_kept frame.now group file.now kept.now) }
    ensures records { OnOk result (out.new.records ≡ out.old.records) }
{
    match kept {
        [version] => notify_version(alloc, frame, group, file, version, out),
        _ => Ok(()),
    }
}

/// Notifies each member of the file's set that doesn't hold its only kept version.
pub fn notify_lagging(
    alloc: Global,
    frame: &SiteFrame,
    group: u8,
    file: &KnownFile,
    out: &mut Outbox,
) -> Result<(), NoMemory>
    ensures packets { OnOk result (out.new.packets ≡ out.old.packets ++ file_notices frame.now group file.now) }
    ensures records { OnOk result (out.new.records ≡ out.old.records) }
{
    notify_kept(alloc, frame, group, file, file.kept(), out)
}

/// Notifies the lagging members of each of the files.
pub fn notify_all(
    alloc: Global,
    frame: &SiteFrame,
    group: u8,
    files: &[KnownFile],
    out: &mut Outbox,
) -> Result<(), NoMemory>
    ensures packets { OnOk result (out.new.packets ≡ out.old.packets ++ flat_map (file_notices frame.now group) files.now) }
    ensures records { OnOk result (out.new.records ≡ out.old.records) }
{
    for file in files {
        notify_lagging(alloc, frame, group, file, out)?;
    }
    Ok(())
}

/// Notifies the lagging members of a file, where it is known.
fn notify_known(
    alloc: Global,
    frame: &SiteFrame,
    group: u8,
    files: &Files,
    ino: u16,
    out: &mut Outbox,
) -> Result<(), NoMemory>
    ensures packets { OnOk result (out.new.packets ≡ out.old.packets ++ row_notices frame.now group (row row_ino ino files.now)) }
    ensures records { OnOk result (out.new.records ≡ out.old.records) }
{
    match files.find(ino) {
        Some(file) => notify_lagging(alloc, frame, group, file, out),
        None => Ok(()),
    }
}

/// Notifies the lagging members of each of the files that are listed.
fn notify_listed(
    alloc: Global,
    frame: &SiteFrame,
    group: u8,
    files: &Files,
    listed: &[Listed],
    out: &mut Outbox,
) -> Result<(), NoMemory>
    ensures packets { OnOk result (out.new.packets ≡ out.old.packets ++ flat_map (file_notices frame.now group) (found_rows files.now listed.now)) }
    ensures records { OnOk result (out.new.records ≡ out.old.records) }
{
    for one in listed {
        notify_known(alloc, frame, group, files, one.ino, out)?;
    }
    Ok(())
}

/// Notifies the lagging members of all files of the group: of those alone that have one, where these are known.
pub fn notify_again(
    alloc: Global,
    frame: &SiteFrame,
    group: u8,
    files: &Files,
    out: &mut Outbox,
) -> Result<(), NoMemory>
    ensures packets { OnOk result (out.new.packets ≡ out.old.packets ++ flat_map (file_notices frame.now group) files.now) }
    ensures records { OnOk result (out.new.records ≡ out.old.records) }
{
    match files.late(&frame.members) {
        Some(late) => notify_listed(alloc, frame, group, files, late, out),
        None => notify_all(alloc, frame, group, files.as_slice(), out),
    }
}
