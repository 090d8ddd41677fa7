ghost use Rattle.std.specs.Prelude.{◌≡◌, ◌≤◌, ◌&&◌, length, filter, IfOk};
ghost use Rattle.tree_model.specs.Epochs.{is_in};
ghost use Rattle.promises.specs.Same.{same_request};
ghost use Rattle.promises.specs.Past.{Epoch, acts, asks, ends};
ghost use Rattle.promises.specs.Rows.{is_asked};
ghost use Rattle.audit_told_calls.specs.Once.{OneEach};

use crate::asked::members_of;
use audit_call_rows::audit_row_parts::is_in;
use audit_call_rows::{actor, asks_request, ender};
use audit_calls::CallRow;
use audit_instances::InstanceRow;
use audit_past::Told;
use call_rules::Want;
use locus_ids::{Config, EpochId, NoMemory};

/// An operation of an open instance of an epoch.
#[derive(Clone, Copy)]
pub struct OperationAt<'a> {
    pub epoch: EpochId,
    pub instance: &'a InstanceRow,
    pub n: u32,
}

/// The release of an open instance of an epoch.
#[derive(Clone, Copy)]
pub struct ReleaseAt<'a> {
    pub epoch: EpochId,
    pub instance: &'a InstanceRow,
}

/// Operation n of the open instance is what the call asks next whose step it is.
pub fn is_acted(
    config: &Config,
    told: &Told,
    at: OperationAt<'_>,
    request: &Want,
) -> Result<bool, NoMemory>
    requires each { OneEach told.now }
    requires one { length (filter (acts at.epoch at.instance.now at.n) told.now.calls) ≤ 1 }
    ensures { (t : Epoch) → t.id ≡ at.entry.epoch → IfOk result (λ b. b ≡ is_asked config.now told.now t (acts t.id at.entry.instance.now at.entry.n) request.now) }
{
    let Some(row) = actor(told.calls(), at.epoch, at.instance, at.n) else {
        return Ok(false);
    };
    is_next(config, told, at.epoch, row, request)
}

/// The release of the open instance is what the call asks next whose step it is.
pub fn is_ended(
    config: &Config,
    told: &Told,
    at: ReleaseAt<'_>,
    request: &Want,
) -> Result<bool, NoMemory>
    requires each { OneEach told.now }
    requires one { length (filter (ends at.epoch at.instance.now) told.now.calls) ≤ 1 }
    ensures { (t : Epoch) → t.id ≡ at.entry.epoch → IfOk result (λ b. b ≡ is_asked config.now told.now t (ends t.id at.entry.instance.now) request.now) }
{
    let Some(row) = ender(told.calls(), at.epoch, at.instance) else {
        return Ok(false);
    };
    is_next(config, told, at.epoch, row, request)
}

/// The call was accepted in the epoch, and asks this next.
fn is_next(
    config: &Config,
    told: &Told,
    epoch: EpochId,
    row: &CallRow,
    request: &Want,
) -> Result<bool, NoMemory>
    requires { OneEach told.now }
    ensures { IfOk result (λ b. b ≡ (is_in row.now.epoch epoch && same_request (asks config.now told.now row.now) request.now)) }
{
    if !is_in(row.epoch(), epoch) {
        return Ok(false);
    }
    let members = members_of(told, row.epoch());
    asks_request(config, members, row, request)
}
