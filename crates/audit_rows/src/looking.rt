ghost use Rattle.std.specs.Prelude.{◌≡◌, IfOk};
ghost use Rattle.tree_model.specs.Given.{served_by};
ghost use Rattle.tree_model.specs.Same.{is_served};
ghost use Rattle.promises.specs.Past.{epoch_at, kept_in};
ghost use Rattle.promises.specs.Rows.{may_look};
ghost use Rattle.audit_told_calls.specs.Once.{OneEach};

use crate::finding::epoch_row;
use crate::keeping::kept_of;
use crate::underway::is_underway;
use audit_epochs::EpochRow;
use audit_told_calls::{LookTold, Told, is_looked_so};
use audit_tree::is_served;
use locus_ids::{Config, EpochId, FileId, NoMemory};
use trace_book::{Served, What};

/// A look that its call asks is served the only kept version, or it is told why there is none; a look at a whole content, the
/// kept version that it names. It may stand more than once under one request number.
pub fn may_look(
    config: &Config,
    told: &Told,
    epoch: EpochId,
    look: LookTold<'_>,
    served: &Served,
) -> Result<bool, NoMemory>
    requires { OneEach told.now }
    ensures { IfOk result (λ yes. yes ≡ may_look config.now told.now (epoch_at told.now epoch) look.entry.call look.entry.request look.entry.file look.entry.what.now served.now) }
{
    match epoch_row(told, epoch) {
        Some(t) => looks(config, told, t, look, served),
        None => Ok(false),
    }
}

fn looks(
    config: &Config,
    told: &Told,
    t: &EpochRow,
    look: LookTold<'_>,
    served: &Served,
) -> Result<bool, NoMemory>
    requires { OneEach told.now }
    ensures { IfOk result (λ yes. yes ≡ may_look config.now told.now t.now look.entry.call look.entry.request look.entry.file look.entry.what.now served.now) }
{
    if !is_underway(config, t, look.file.group) {
        return Ok(false);
    }
    if !is_served_so(config, told, t, look.file, look.what, served)? {
        return Ok(false);
    }
    is_looked_so(config, told, t, look)
}

/// The look is served as the kept versions say.
fn is_served_so(
    config: &Config,
    told: &Told,
    t: &EpochRow,
    file: FileId,
    what: &What,
    served: &Served,
) -> Result<bool, NoMemory>
    ensures { IfOk result (λ yes. yes ≡ is_served (served_by what.now (kept_in told.now t.now file)) served.now) }
{
    let kept = kept_of(config, told, t, file)?;
    Ok(is_served(what, kept.as_slice(), served))
}
