ghost use Rattle.std.specs.Prelude.{◌≡◌, ◌==◌, not, ◌&&◌, ◌||◌, IfOk};
ghost use Rattle.tree_model.specs.State.{is_make};
ghost use Rattle.promises.specs.Past.{CallSoFar, epoch_at, kept_in};
ghost use Rattle.promises.specs.Rows.{asks_open, is_refused, is_step_of, may_refuse};
ghost use Rattle.audit_told_calls.specs.Once.{OneEach};

use crate::asking::{OpenTold, asks_open};
use crate::finding::epoch_row;
use crate::keeping::kept_of;
use crate::underway::is_underway;
use audit_calls::CallRow;
use audit_epochs::EpochRow;
use audit_opens::is_refused;
use audit_row_parts::is_in;
use audit_told_calls::Told;
use locus_ids::{Config, EpochId, Mode, NoMemory, Refusal, Stamp};

/// An open that its call asks is refused as the tree says.
pub fn may_refuse(
    config: &Config,
    told: &Told,
    epoch: EpochId,
    open: OpenTold,
    why: &Refusal,
) -> Result<bool, NoMemory>
    requires { OneEach told.now }
    ensures { IfOk result (λ yes. yes ≡ may_refuse config.now told.now (epoch_at told.now epoch) open.call open.request open.mode open.file why.now) }
{
    match epoch_row(told, epoch) {
        Some(t) => refuses(config, told, t, open, why),
        None => Ok(false),
    }
}

fn refuses(
    config: &Config,
    told: &Told,
    t: &EpochRow,
    open: OpenTold,
    why: &Refusal,
) -> Result<bool, NoMemory>
    requires { OneEach told.now }
    ensures { IfOk result (λ yes. yes ≡ may_refuse config.now told.now t.now open.call open.request open.mode open.file why.now) }
{
    if !is_underway(config, t, open.file.group) {
        return Ok(false);
    }
    if !has_no_number(open) {
        return Ok(false);
    }
    is_refused_so(config, told, t, open, why)
}

/// A make that is refused names no file.
fn has_no_number(open: OpenTold) -> bool
    ensures { result ≡ (not (is_make open.mode) || (open.file.ino == 0)) }
{
    !matches!(open.mode, Mode::Make) || open.file.ino == 0
}

/// The open is the step that its call, accepted in the epoch, asks, and is refused so.
fn is_refused_so(
    config: &Config,
    told: &Told,
    t: &EpochRow,
    open: OpenTold,
    why: &Refusal,
) -> Result<bool, NoMemory>
    requires { OneEach told.now }
    ensures { IfOk result (λ yes. yes ≡ is_step_of told.now t.now open.call (λ (k : CallSoFar). asks_open config.now told.now open.request open.mode open.file k && is_refused config.now told.now t.now open.mode open.file why.now k)) }
{
    let Some(k) = told.calls().find(open.call) else {
        return Ok(false);
    };
    if !is_in(k.epoch(), t.id()) {
        return Ok(false);
    }
    is_asked_so(config, told, t, k, open, why)
}

/// The call asks the open, and it is refused so.
fn is_asked_so(
    config: &Config,
    told: &Told,
    t: &EpochRow,
    k: &CallRow,
    open: OpenTold,
    why: &Refusal,
) -> Result<bool, NoMemory>
    requires { OneEach told.now }
    ensures { IfOk result (λ yes. yes ≡ (asks_open config.now told.now open.request open.mode open.file k.now && is_refused config.now told.now t.now open.mode open.file why.now k.now)) }
{
    if !asks_open(config, told, k, open)? {
        return Ok(false);
    }
    refuses_so(config, told, t, k, open, why)
}

/// The open of the call is refused so.
fn refuses_so(
    config: &Config,
    told: &Told,
    t: &EpochRow,
    k: &CallRow,
    open: OpenTold,
    why: &Refusal,
) -> Result<bool, NoMemory>
    requires { OneEach told.now }
    ensures { IfOk result (λ yes. yes ≡ is_refused config.now told.now t.now open.mode open.file why.now k.now) }
{
    let kept = kept_of(config, told, t, open.file)?;
    Ok(refuses_where(config, told, t, k, open, why, kept.as_slice()))
}

/// The same, where these versions are kept.
fn refuses_where(
    config: &Config,
    told: &Told,
    t: &EpochRow,
    k: &CallRow,
    open: OpenTold,
    why: &Refusal,
    kept: &[Stamp],
) -> bool
    requires { OneEach told.now }
    ensures { kept.now ≡ kept_in told.now t.now open.file → result ≡ is_refused config.now told.now t.now open.mode open.file why.now k.now }
{
    let sites = told.sites();
    let calls = told.calls();
    is_refused(config, sites, calls, t, k, open.mode, open.file, kept, why)
}
