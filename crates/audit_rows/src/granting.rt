ghost use Rattle.std.specs.Prelude.{◌≡◌, ◌==◌, not, ◌&&◌, IfOk};
ghost use Rattle.std.specs.List.{list_any};
ghost use Rattle.std.specs.Option.{is_none, is_some};
ghost use Rattle.trace_book.specs.Same.{same_serial};
ghost use Rattle.tree_model.specs.declared.instance.Granted.{Granted};
ghost use Rattle.promises.specs.Past.{CallSoFar, epoch_at, is_number, kept_in};
ghost use Rattle.promises.specs.Rows.{asks_open, is_step_of, may_grant};
ghost use Rattle.promises.specs.Tree.{is_placed, open_refusal};
ghost use Rattle.audit_told_calls.specs.Once.{OneEach};

use crate::asking::{OpenTold, asks_open};
use crate::finding::epoch_row;
use crate::keeping::kept_of;
use crate::underway::is_underway;
use audit_calls::CallRow;
use audit_epochs::EpochRow;
use audit_opens::{Place, is_placed, open_refusal};
use audit_row_parts::{is_in, is_number};
use audit_told_calls::Told;
use locus_ids::{Config, EpochId, FileId, Mode, NoMemory, Serial, Stamp};

/// The instance as which an open is granted, the version on which it stands, and its storage site.
#[derive(Clone, Copy)]
pub struct GrantTold {
    pub instance: Serial,
    pub stamp: Option<Stamp>,
    pub ss: u8,
}

/// An open that its call asks and nothing refuses is granted, at a site that is or has been in the epoch, as an instance of the
/// call's site that no grant of the epoch names.
pub fn may_grant(
    config: &Config,
    told: &Told,
    epoch: EpochId,
    open: OpenTold,
    grant: GrantTold,
) -> Result<bool, NoMemory>
    requires { OneEach told.now }
    ensures { IfOk result (λ yes. yes ≡ may_grant config.now told.now (epoch_at told.now epoch) open.call open.request grant.instance open.mode open.file grant.stamp grant.ss) }
{
    match epoch_row(told, epoch) {
        Some(t) => grants(config, told, t, open, grant),
        None => Ok(false),
    }
}

fn grants(
    config: &Config,
    told: &Told,
    t: &EpochRow,
    open: OpenTold,
    grant: GrantTold,
) -> Result<bool, NoMemory>
    requires { OneEach told.now }
    ensures { IfOk result (λ yes. yes ≡ may_grant config.now told.now t.now open.call open.request grant.instance open.mode open.file grant.stamp grant.ss) }
{
    if !is_underway(config, t, open.file.group) {
        return Ok(false);
    }
    if !is_new_there(t, open, grant) {
        return Ok(false);
    }
    is_granted_so(config, told, t, open, grant)
}

/// The storage site is or has been in the epoch, and no grant of the epoch names the instance, which is of the call's site.
fn is_new_there(t: &EpochRow, open: OpenTold, grant: GrantTold) -> bool
    ensures { result ≡ (is_number t.now.joined grant.ss && ((grant.instance.us == open.call.site) && not (list_any (λ (g : Granted). same_serial g.inst grant.instance) t.now.granted))) }
{
    is_number(t.joined(), grant.ss)
        && (grant.instance.us == open.call.site && !t.granted().is_granted(grant.instance))
}

/// The open is the step that its call, accepted in the epoch, asks, and is granted so.
fn is_granted_so(
    config: &Config,
    told: &Told,
    t: &EpochRow,
    open: OpenTold,
    grant: GrantTold,
) -> Result<bool, NoMemory>
    requires { OneEach told.now }
    ensures { IfOk result (λ yes. yes ≡ is_step_of told.now t.now open.call (λ (k : CallSoFar). asks_open config.now told.now open.request open.mode open.file k && (is_none (open_refusal config.now told.now t.now k open.mode open.file) && is_placed config.now told.now t.now k open.mode open.file grant.stamp grant.ss))) }
{
    let Some(k) = told.calls().find(open.call) else {
        return Ok(false);
    };
    if !is_in(k.epoch(), t.id()) {
        return Ok(false);
    }
    is_asked_so(config, told, t, k, open, grant)
}

/// The call asks the open, and it may be granted so.
fn is_asked_so(
    config: &Config,
    told: &Told,
    t: &EpochRow,
    k: &CallRow,
    open: OpenTold,
    grant: GrantTold,
) -> Result<bool, NoMemory>
    requires { OneEach told.now }
    ensures { IfOk result (λ yes. yes ≡ (asks_open config.now told.now open.request open.mode open.file k.now && (is_none (open_refusal config.now told.now t.now k.now open.mode open.file) && is_placed config.now told.now t.now k.now open.mode open.file grant.stamp grant.ss))) }
{
    if !asks_open(config, told, k, open)? {
        return Ok(false);
    }
    let place = Place {
        file: open.file,
        stamp: grant.stamp,
        ss: grant.ss,
    };
    grants_so(config, told, t, k, open.mode, place)
}

/// Nothing refuses the open of the call, and it may be granted so.
fn grants_so(
    config: &Config,
    told: &Told,
    t: &EpochRow,
    k: &CallRow,
    mode: Mode,
    place: Place,
) -> Result<bool, NoMemory>
    ensures { IfOk result (λ yes. yes ≡ (is_none (open_refusal config.now told.now t.now k.now mode place.file) && is_placed config.now told.now t.now k.now mode place.file place.stamp place.ss)) }
{
    let kept = kept_of(config, told, t, place.file)?;
    let kept = kept.as_slice();
    let refused = is_refused(config, told, t, k, mode, place.file, kept);
    Ok(!refused && is_placed_where(config, told, t, k, mode, place, kept))
}

/// Something refuses the open, where these versions are kept.
fn is_refused(
    config: &Config,
    told: &Told,
    t: &EpochRow,
    k: &CallRow,
    mode: Mode,
    file: FileId,
    kept: &[Stamp],
) -> bool
    ensures { kept.now ≡ kept_in told.now t.now file → result ≡ is_some (open_refusal config.now told.now t.now k.now mode file) }
{
    open_refusal(config, told.sites(), t, k, mode, file, kept).is_some()
}

/// It may be granted so, where these versions are kept.
fn is_placed_where(
    config: &Config,
    told: &Told,
    t: &EpochRow,
    k: &CallRow,
    mode: Mode,
    place: Place,
    kept: &[Stamp],
) -> bool
    ensures { kept.now ≡ kept_in told.now t.now place.file → result ≡ is_placed config.now told.now t.now k.now mode place.file place.stamp place.ss }
{
    is_placed(config, told.sites(), t, k, mode, place, kept)
}
