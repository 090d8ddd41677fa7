ghost use Rattle.std.specs.Prelude.{◌≡◌, IfOk};
ghost use Rattle.std.specs.List.{list_any};
ghost use Rattle.promises.specs.Past.{epoch_at};
ghost use Rattle.promises.specs.Rows.{may_adopt, may_boot, may_commit, may_join, may_leave, may_start, may_stop};
ghost use Rattle.audit_told_calls.specs.Once.{OneEach};

use audit_row_parts::Commit;
use audit_told_calls::Told;
use locus_ids::{Brought, Config, EpochId, FileId, Members, NoMemory, Stamp};
use trace_book::StopCause;

/// A stopped site boots with a number above all that it had.
pub fn may_boot(_config: &Config, told: &Told, site: u8, boot: u32) -> Result<bool, NoMemory>
    ensures { IfOk result (λ yes. yes ≡ may_boot told.now site boot) }
{
    Ok(audit_row_parts::may_boot(told.sites(), site, boot))
}

/// A running site stops; within a disk call also one that boots.
pub fn may_stop(_config: &Config, told: &Told, site: u8, cause: StopCause) -> Result<bool, NoMemory>
    ensures { IfOk result (λ yes. yes ≡ may_stop told.now site cause) }
{
    Ok(audit_row_parts::may_stop(told.sites(), site, cause))
}

/// A site leaves the epoch that it is in.
pub fn may_leave(_config: &Config, told: &Told, site: u8, epoch: EpochId) -> Result<bool, NoMemory>
    ensures { IfOk result (λ yes. yes ≡ may_leave told.now site epoch) }
{
    Ok(audit_row_parts::may_leave(told.sites(), site, epoch))
}

/// A running site in no epoch joins one that it never joined, above all that it joined in this boot, as a member with its boot
/// number; every member joins it with the same list.
pub fn may_join(
    _config: &Config,
    told: &Told,
    site: u8,
    epoch: EpochId,
    members: &Members,
) -> Result<bool, NoMemory>
    requires { OneEach told.now }
    ensures { IfOk result (λ yes. yes ≡ may_join told.now site epoch members.now) }
{
    Ok(audit_site_rows::may_join(told, site, epoch, members))
}

/// A group starts once in an epoch, when all its member packs are in it, with the versions that they brought.
pub fn may_start(
    config: &Config,
    told: &Told,
    epoch: EpochId,
    group: u8,
    copies: &[Brought],
) -> Result<bool, NoMemory>
    ensures { IfOk result (λ yes. yes ≡ may_start config.now (epoch_at told.now epoch) group copies.now) }
{
    audit_site_rows::may_start(config, told, epoch, group, copies)
}

/// A site adopts a version of its epoch that is above its own, of a file that is for it and that nobody has open there.
pub fn may_adopt(
    _config: &Config,
    told: &Told,
    file: FileId,
    site: u8,
    stamp: Stamp,
) -> Result<bool, NoMemory>
    requires { OneEach told.now }
    ensures { IfOk result (λ yes. yes ≡ list_any (may_adopt told.now file site stamp) told.now.epochs) }
{
    audit_site_rows::may_adopt(told, file, site, stamp)
}

/// A version is committed by the one open instance of its file that isn't only read, which owes it, at its storage site: its
/// working content, on the parents that it stands on, with the site's next number.
pub fn may_commit(
    config: &Config,
    told: &Told,
    file: FileId,
    commit: &Commit<'_>,
) -> Result<bool, NoMemory>
    requires { OneEach told.now }
    ensures { IfOk result (λ yes. yes ≡ list_any (may_commit told.now file commit.now.site commit.now.stamp commit.now.parents.now commit.now.content.now) told.now.epochs) }
{
    audit_site_rows::may_commit(config.mounts.allocator(), told, file, commit)
}
