ghost use Rattle.std.specs.Prelude.{◌≡◌, IfOk};
ghost use Rattle.promises.specs.Rows.{is_step_of};
ghost use Rattle.audit_told_calls.specs.Looked.{asked_look};
ghost use Rattle.audit_told_calls.specs.Once.{OneEach};

use crate::asked::members_of;
use audit_call_rows::asks_look;
use audit_call_rows::audit_row_parts::is_in;
use audit_past::Told;
use audit_past::audit_epochs::EpochRow;
use call_rules::Want;
use locus_ids::{CallId, Config, FileId, NoMemory};
use trace_book::What;

/// A look as a record tells of it: whose it is, and the number of its request.
#[derive(Clone, Copy)]
pub struct LookTold<'a> {
    pub call: CallId,
    pub request: u16,
    pub file: FileId,
    pub what: &'a What,
}

/// The look is a step that its call, accepted in the epoch, asks by the request of this number, its last or its next.
pub fn is_looked_so(
    config: &Config,
    told: &Told,
    epoch: &EpochRow,
    look: LookTold<'_>,
) -> Result<bool, NoMemory>
    requires { OneEach told.now }
    ensures { IfOk result (λ b. b ≡ is_step_of told.now epoch.now look.entry.call (asked_look config.now told.now look.entry.request look.entry.file look.entry.what.now)) }
{
    let Some(row) = told.calls().find(look.call) else {
        return Ok(false);
    };
    if !is_in(row.epoch(), epoch.id()) {
        return Ok(false);
    }
    let asked = Want::Look {
        file: look.file,
        what: look.what.copy()?,
    };
    let members = members_of(told, row.epoch());
    asks_look(config, members, row, look.request, &asked)
}
