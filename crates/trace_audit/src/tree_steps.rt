ghost use Rattle.std.specs.Prelude.{◌≡◌, IfOk};
ghost use Rattle.std.specs.List.{find, list_any};
ghost use Rattle.std.specs.Option.{option_and_then, option_map};
ghost use Rattle.locus_ids.specs.declared.ids.Serial.{Serial};
ghost use Rattle.trace_book.specs.declared.record.Record.TheVariants as rec;
ghost use Rattle.tree_model.specs.Same.{is_given};
ghost use Rattle.promises.specs.Past.{CallSoFar, Epoch, Instance, ends, is_named};
ghost use Rattle.promises.specs.After.{is_epoch};
ghost use Rattle.promises.specs.Rows.{may_commit};
ghost use Rattle.audit_laws.specs.Tidy.Tidy.{IsTidy};
ghost use Rattle.audit_rows.specs.of_audit_told_calls.Once.{OneEach};
ghost use Rattle.trace_audit.specs.Steps.{Judges};

use audit_instances::InstanceRow;
use audit_rows::{
    ActTold, Commit, EndTold, GrantTold, OpenTold, Opening, Told, act_with, ender, may_commit,
    may_grant, may_refuse, may_release,
};
use commit_graph::Version;
use locus_ids::{CallId, Config, EpochId, NoMemory, Refusal, Serial};
use trace_book::{Op, Outcome};
use tree_tables::same_outcome;

/// An open is granted.
pub(crate) fn grant(
    config: &Config,
    told: &mut Told,
    epoch: EpochId,
    asked: OpenTold,
    granted: GrantTold,
) -> Result<bool, NoMemory>
    requires { IsTidy config.now told.old }
    ensures { IfOk result (Judges config.now told.old (rec.Grant epoch asked.call asked.request granted.instance asked.mode asked.file granted.stamp granted.ss) told.new) }
{
    if !may_grant(config, told, epoch, asked, granted)? {
        return Ok(false);
    }
    let opening = Opening {
        inst: granted.instance,
        mode: asked.mode,
        file: asked.file,
        stamp: granted.stamp,
        ss: granted.ss,
    };
    told.granted(epoch, asked.call, &opening)?;
    Ok(true)
}

/// An open is refused, of whichever instance the record tells.
pub(crate) fn refuse(
    config: &Config,
    told: &mut Told,
    epoch: EpochId,
    asked: OpenTold,
    why: Refusal,
) -> Result<bool, NoMemory>
    requires { IsTidy config.now told.old }
    ensures { (instance : Serial) → IfOk result (Judges config.now told.old (rec.Refuse epoch asked.call asked.request instance asked.mode asked.file why) told.new) }
{
    if !may_refuse(config, told, epoch, asked, &why)? {
        return Ok(false);
    }
    told.refused(epoch, asked.call, asked.mode, asked.file, why)?;
    Ok(true)
}

/// An open instance does an operation, which is carried out to see what it gives.
pub(crate) fn act(
    config: &Config,
    told: &mut Told,
    at: ActTold,
    op: &Op,
    outcome: &Outcome,
) -> Result<bool, NoMemory>
    requires { IsTidy config.now told.old }
    ensures { IfOk result (Judges config.now told.old (rec.Act at.epoch at.instance at.n op.now outcome.now) told.new) }
{
    let Some(with) = act_with(config, told, at, op)? else {
        return Ok(false);
    };
    let Some(mut work) = told.take_work(at.epoch, at.instance)? else {
        return Ok(false);
    };
    let gave = audit_tree::act(&mut work, with.mode, op, &with.added, with.free)?;
    if !is_given(&gave, outcome) {
        return Ok(false);
    }
    told.acted(at.epoch, at.instance, (op, outcome), work, with.actor)?;
    Ok(true)
}

/// The outcome is there, and is this one.
fn is_given(gave: &Option<Outcome>, outcome: &Outcome) -> bool
    ensures { result ≡ is_given gave.now outcome.now }
{
    match gave {
        Some(gave) => same_outcome(gave, outcome),
        None => false,
    }
}

/// A version is on the disk.
pub(crate) fn commit(config: &Config, told: &mut Told, version: Version) -> Result<bool, NoMemory>
    requires { IsTidy config.now told.old }
    ensures { IfOk result (Judges config.now told.old (rec.Commit version.file version.site version.stamp version.parents version.content) told.new) }
{
    if !may_come(config, told, &version)? {
        return Ok(false);
    }
    told.committed(config, version)?;
    Ok(true)
}

/// The version may be committed next.
fn may_come(config: &Config, told: &Told, version: &Version) -> Result<bool, NoMemory>
    requires { OneEach told.now }
    ensures { IfOk result (λ yes. yes ≡ list_any (may_commit told.now version.now.file version.now.site version.now.stamp version.now.parents version.now.content) told.now.epochs) }
{
    let commit = Commit {
        site: version.site,
        stamp: version.stamp,
        parents: version.parents.as_slice(),
        content: version.content.as_slice(),
    };
    may_commit(config, told, version.file, &commit)
}

/// An open instance ends.
pub(crate) fn release(
    config: &Config,
    told: &mut Told,
    epoch: EpochId,
    end: EndTold,
) -> Result<bool, NoMemory>
    requires { IsTidy config.now told.old }
    ensures { IfOk result (Judges config.now told.old (rec.Release epoch end.instance end.file end.stamp) told.new) }
{
    if !may_release(config, told, epoch, end)? {
        return Ok(false);
    }
    let Some(ender) = ender_of(told, epoch, end.instance) else {
        return Ok(false);
    };
    told.released(epoch, end.instance, end.file, end.stamp, ender)?;
    Ok(true)
}

/// The call of which the release of the open instance is a step.
fn ender_of(told: &Told, epoch: EpochId, instance: Serial) -> Option<CallId>
    ensures { result ≡ option_and_then (λ (t : Epoch). option_and_then (λ (x : Instance). option_map (λ (k : CallSoFar). k.id) (find (ends epoch x) told.now.calls)) (find (is_named instance) t.opened)) (find (is_epoch epoch) told.now.epochs) }
{
    match told.epochs().find(epoch) {
        Some(row) => match row.opened().named(instance) {
            Some(instance) => ended_by(told, epoch, instance),
            None => None,
        },
        None => None,
    }
}

fn ended_by(told: &Told, epoch: EpochId, instance: &InstanceRow) -> Option<CallId>
    ensures { result ≡ option_map (λ (k : CallSoFar). k.id) (find (ends epoch instance.now) told.now.calls) }
{
    match ender(told.calls(), epoch, instance) {
        Some(call) => Some(call.id()),
        None => None,
    }
}
