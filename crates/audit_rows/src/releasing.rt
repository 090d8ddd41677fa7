ghost use Rattle.std.specs.Prelude.{◌≡◌, not, ◌&&◌, ◌||◌, IfOk};
ghost use Rattle.commit_graph.specs.Versions.{same_file};
ghost use Rattle.call_rules.specs.declared.want.Want.TheVariants as want;
ghost use Rattle.tree_model.specs.Same.{same_version};
ghost use Rattle.promises.specs.Past.{ends, epoch_at};
ghost use Rattle.promises.specs.Rows.{is_asked, may_release};
ghost use Rattle.promises.specs.Tree.{is_spent};
ghost use Rattle.audit_told_calls.specs.Once.{OneEach};
ghost use Rattle.audit_rows.specs.Steps.{EndOnce};

use crate::finding::{epoch_row, instance_row};
use crate::underway::is_synced;
use audit_epochs::EpochRow;
use audit_instances::InstanceRow;
use audit_row_parts::may_end;
use audit_site_rows::is_spent;
use audit_told_calls::{ReleaseAt, Told, is_ended};
use call_rules::Want;
use locus_ids::{Config, EpochId, FileId, NoMemory, Serial, Stamp};

/// A release as a record tells it.
#[derive(Clone, Copy)]
pub struct EndTold {
    pub instance: Serial,
    pub file: FileId,
    pub stamp: Option<Stamp>,
}

/// An open instance is released as its call asks, and its last version published; it owes no commit, or one that can't be made.
pub fn may_release(
    config: &Config,
    told: &Told,
    epoch: EpochId,
    end: EndTold,
) -> Result<bool, NoMemory>
    requires each { OneEach told.now }
    requires once { EndOnce told.now }
    ensures { IfOk result (λ yes. yes ≡ may_release config.now told.now (epoch_at told.now epoch) end.instance end.file end.stamp) }
{
    match epoch_row(told, epoch) {
        Some(t) => releases(config, told, t, end),
        None => Ok(false),
    }
}

fn releases(config: &Config, told: &Told, t: &EpochRow, end: EndTold) -> Result<bool, NoMemory>
    requires each { OneEach told.now }
    requires once { EndOnce told.now }
    ensures { IfOk result (λ yes. yes ≡ may_release config.now told.now t.now end.instance end.file end.stamp) }
{
    if !is_synced(config, t, end.file.group) {
        return Ok(false);
    }
    match instance_row(t, end.instance) {
        Some(x) => ends_so(config, told, t, x, end),
        None => Ok(false),
    }
}

/// The instance may end so, and a call asks this of it.
fn ends_so(
    config: &Config,
    told: &Told,
    t: &EpochRow,
    x: &InstanceRow,
    end: EndTold,
) -> Result<bool, NoMemory>
    requires each { OneEach told.now }
    requires once { EndOnce told.now }
    ensures { IfOk result (λ yes. yes ≡ (same_file x.now.grant.file end.file && (same_version end.stamp x.now.work.committed && ((not x.now.work.owes || is_spent told.now t.now x.now) && is_asked config.now told.now t.now (ends t.now.id x.now) (want.Close end.instance))))) }
{
    let spent = is_spent_by(config, told, t, x)?;
    if !may_end(x, end.file, end.stamp, spent) {
        return Ok(false);
    }
    is_closed(config, told, t, x, end.instance)
}

/// The counter that a commit must raise has its greatest value.
fn is_spent_by(
    config: &Config,
    told: &Told,
    t: &EpochRow,
    x: &InstanceRow,
) -> Result<bool, NoMemory>
    ensures { IfOk result (λ yes. yes ≡ is_spent told.now t.now x.now) }
{
    is_spent(config.mounts.allocator(), told.versions(), t.known(), x)
}

/// The close of the instance is what the call asks next whose step it is.
fn is_closed(
    config: &Config,
    told: &Told,
    t: &EpochRow,
    x: &InstanceRow,
    instance: Serial,
) -> Result<bool, NoMemory>
    requires each { OneEach told.now }
    requires once { EndOnce told.now }
    ensures { IfOk result (λ yes. yes ≡ is_asked config.now told.now t.now (ends t.now.id x.now) (want.Close instance)) }
{
    let at = ReleaseAt {
        epoch: t.id(),
        instance: x,
    };
    is_ended(config, told, at, &Want::Close { inst: instance })
}
