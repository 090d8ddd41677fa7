ghost use Rattle.std.specs.Prelude.{◌≡◌, ◌≤◌, ◌==◌, ◌+◌, ◌&&◌, cond, length, filter, None, IfOk};
ghost use Rattle.call_rules.specs.declared.want.Want.TheVariants as want;
ghost use Rattle.promises.specs.Past.{Epoch, acts, is_number};
ghost use Rattle.promises.specs.Rows.{is_asked};
ghost use Rattle.promises.specs.Tree.{free_pages};
ghost use Rattle.audit_tree.specs.Adding.{IsShort, added_on};
ghost use Rattle.audit_told_calls.specs.Once.{OneEach};
ghost use Rattle.audit_rows.specs.Acts.{MayAct, actor_of};
ghost use Rattle.audit_rows.specs.Steps.{ActOnce};

use crate::finding::{epoch_row, instance_row};
use crate::room::free_pages;
use audit_epochs::EpochRow;
use audit_instances::InstanceRow;
use audit_row_parts::{is_next, is_number};
use audit_site_rows::added_for;
use audit_told_calls::{OperationAt, Told, actor, is_acted};
use audit_tree::Added;
use call_rules::Want;
use locus_ids::{CallId, Config, EpochId, Mode, NoMemory, Serial};
use trace_book::Op;

/// An operation as a record tells of it: of which open instance, and its number there.
#[derive(Clone, Copy)]
pub struct ActTold {
    pub epoch: EpochId,
    pub instance: Serial,
    pub n: u32,
}

/// With what an operation is carried out: the call whose step it is, the mode of its instance, what the tree adds to its words, and
/// the pages that are free.
pub struct Acting {
    pub actor: CallId,
    pub mode: Mode,
    pub added: Added,
    pub free: u16,
}

// Taken apart in one place: where one is dropped, the prover sees one call.
impl Drop for Acting {
    fn drop(self) {
        let Acting {
            actor: _,
            mode: _,
            added: _,
            free: _,
        } = self;
    }
}

/// With what the operation is carried out that an open instance executes next, as its call asks; none where it may not come next,
/// whatever it gives. Whether it gives what is recorded is seen by carrying it out.
pub fn act_with(
    config: &Config,
    told: &Told,
    at: ActTold,
    op: &Op,
) -> Result<Option<Acting>, NoMemory>
    requires each { OneEach told.now }
    requires once { ActOnce told.now at.epoch at.instance at.n }
    ensures { IfOk result (MayAct config.now told.now at.epoch at.instance at.n op.now) }
{
    let Some(t) = epoch_row(told, at.epoch) else {
        return Ok(None);
    };
    let Some(x) = instance_row(t, at.instance) else {
        return Ok(None);
    };
    if !is_ready(t, x, at.n) {
        return Ok(None);
    }
    let step = OperationAt {
        epoch: t.id(),
        instance: x,
        n: at.n,
    };
    let Some(actor) = asked_for(config, told, step, at.instance, op)? else {
        return Ok(None);
    };
    let added = added_to(config, told, t, x, op)?;
    Ok(Some(Acting {
        actor,
        mode: x.grant().mode,
        added,
        free: pages_free(told, t, x),
    }))
}

/// The operation is the next of the instance, whose storage site is or has been in the epoch.
fn is_ready(t: &EpochRow, x: &InstanceRow, n: u32) -> bool
    ensures { result ≡ ((n == x.now.work.ops + 1) && is_number t.now.joined x.now.grant.ss) }
{
    is_next(x, n) && is_number(t.joined(), x.grant().ss)
}

/// The call that asks for this operation of the instance next, of those whose step it is.
fn asked_for(
    config: &Config,
    told: &Told,
    at: OperationAt<'_>,
    instance: Serial,
    op: &Op,
) -> Result<Option<CallId>, NoMemory>
    requires each { OneEach told.now }
    requires one { length (filter (acts at.epoch at.instance.now at.n) told.now.calls) ≤ 1 }
    ensures { (t : Epoch) → t.id ≡ at.entry.epoch → IfOk result (λ id. id ≡ cond (is_asked config.now told.now t (acts t.id at.entry.instance.now at.entry.n) (want.Do instance op.now)) (actor_of told.now t.id at.entry.instance.now at.entry.n) None) }
{
    let asked = Want::Do {
        inst: instance,
        op: op.copy()?,
    };
    asked_by(config, told, at, &asked)
}

/// The call that asks this next, of those whose step the operation is.
fn asked_by(
    config: &Config,
    told: &Told,
    at: OperationAt<'_>,
    request: &Want,
) -> Result<Option<CallId>, NoMemory>
    requires each { OneEach told.now }
    requires one { length (filter (acts at.epoch at.instance.now at.n) told.now.calls) ≤ 1 }
    ensures { (t : Epoch) → t.id ≡ at.entry.epoch → IfOk result (λ id. id ≡ cond (is_asked config.now told.now t (acts t.id at.entry.instance.now at.entry.n) request.now) (actor_of told.now t.id at.entry.instance.now at.entry.n) None) }
{
    if !is_acted(config, told, at, request)? {
        return Ok(None);
    }
    Ok(caller(told, at))
}

/// The call whose step the operation is.
fn caller(told: &Told, at: OperationAt<'_>) -> Option<CallId>
    ensures { result ≡ actor_of told.now at.entry.epoch at.entry.instance.now at.entry.n }
{
    match actor(told.calls(), at.epoch, at.instance, at.n) {
        Some(k) => Some(k.id()),
        None => None,
    }
}

/// What the tree adds to the words of the operation.
fn added_to(
    config: &Config,
    told: &Told,
    t: &EpochRow,
    x: &InstanceRow,
    op: &Op,
) -> Result<Added, NoMemory>
    ensures value { IfOk result (λ added. added ≡ added_on told.now t.now op.now x.now) }
    ensures short { IfOk result IsShort }
{
    let alloc = config.mounts.allocator();
    added_for(alloc, told.versions(), t.known(), t.opened(), op, x)
}

/// The pages that are free where the instance is stored.
fn pages_free(told: &Told, t: &EpochRow, x: &InstanceRow) -> u16
    ensures { result ≡ free_pages told.now t.now x.now.grant.file.group x.now.grant.ss }
{
    let grant = x.grant();
    free_pages(told, t, grant.file.group, grant.ss)
}
