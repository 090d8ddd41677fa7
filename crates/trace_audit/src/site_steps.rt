ghost use Rattle.std.specs.Prelude.{ℕ, IfOk};
ghost use Rattle.locus_ids.specs.declared.config.Config.{Config};
ghost use Rattle.trace_book.specs.declared.packet_kind.PacketKind.{PacketKind};
ghost use Rattle.trace_book.specs.declared.record.Record.TheVariants as rec;
ghost use Rattle.audit_laws.specs.Tidy.Tidy.{IsTidy};
ghost use Rattle.trace_audit.specs.Steps.{Judges};

use audit_rows::{Told, may_adopt, may_boot, may_join, may_leave, may_start, may_stop};
use locus_ids::{Config, EpochId, FileId, Members, NoMemory, Stamp};
use trace_book::{BroughtList, StopCause};

/// A site boots.
pub(crate) fn boot(config: &Config, told: &mut Told, site: u8, boot: u32) -> Result<bool, NoMemory>
    requires { IsTidy config.now told.old }
    ensures { IfOk result (Judges config.now told.old (rec.Up site boot) told.new) }
{
    if !may_boot(config, told, site, boot)? {
        return Ok(false);
    }
    told.up(site, boot);
    Ok(true)
}

/// A site stops.
pub(crate) fn stop(
    config: &Config,
    told: &mut Told,
    site: u8,
    cause: StopCause,
) -> Result<bool, NoMemory>
    requires { IsTidy config.now told.old }
    ensures { IfOk result (Judges config.now told.old (rec.Stopped site cause) told.new) }
{
    if !may_stop(config, told, site, cause)? {
        return Ok(false);
    }
    told.stopped(site)?;
    Ok(true)
}

/// A site leaves its epoch.
pub(crate) fn leave(
    config: &Config,
    told: &mut Told,
    site: u8,
    epoch: EpochId,
) -> Result<bool, NoMemory>
    requires { IsTidy config.now told.old }
    ensures { IfOk result (Judges config.now told.old (rec.Leave site epoch) told.new) }
{
    if !may_leave(config, told, site, epoch)? {
        return Ok(false);
    }
    told.left(site)?;
    Ok(true)
}

/// A site joins an epoch.
pub(crate) fn join(
    config: &Config,
    told: &mut Told,
    site: u8,
    epoch: EpochId,
    members: &Members,
) -> Result<bool, NoMemory>
    requires { IsTidy config.now told.old }
    ensures { IfOk result (Judges config.now told.old (rec.Join site epoch members.now) told.new) }
{
    if !may_join(config, told, site, epoch, members)? {
        return Ok(false);
    }
    told.joined(site, epoch, members)?;
    Ok(true)
}

/// A group starts.
pub(crate) fn start(
    config: &Config,
    told: &mut Told,
    epoch: EpochId,
    group: u8,
    copies: &BroughtList,
) -> Result<bool, NoMemory>
    requires { IsTidy config.now told.old }
    ensures { IfOk result (Judges config.now told.old (rec.Start epoch group copies.now) told.new) }
{
    if !may_start(config, told, epoch, group, copies.as_slice())? {
        return Ok(false);
    }
    told.started(epoch, group)?;
    Ok(true)
}

/// A site adopts a version.
pub(crate) fn adopt(
    config: &Config,
    told: &mut Told,
    file: FileId,
    site: u8,
    stamp: Stamp,
) -> Result<bool, NoMemory>
    requires { IsTidy config.now told.old }
    ensures { IfOk result (Judges config.now told.old (rec.Adopt file site stamp) told.new) }
{
    if !may_adopt(config, told, file, site, stamp)? {
        return Ok(false);
    }
    told.adopted(file, site, stamp)?;
    Ok(true)
}

/// A record that changes nothing may always come next.
pub(crate) fn pass(told: &mut Told) -> bool
    ensures void { (c : Config) → Judges c told.old rec.Void told.new result }
    ensures budget { (c : Config) → Judges c told.old rec.Budget told.new result }
    ensures packet { (c : Config) (number from to : ℕ) (kind : PacketKind) → Judges c told.old (rec.Packet number from to kind) told.new result }
{
    told.passed();
    true
}
