ghost use Rattle.std.specs.Prelude.{◌≡◌, IfOk};
ghost use Rattle.locus_ids.specs.declared.ids.FileId.{FileId};
ghost use Rattle.trace_book.specs.declared.operation.What.{What};
ghost use Rattle.call_rules.specs.declared.want.Want.TheVariants as want;
ghost use Rattle.promises.specs.Rows.{gives};
ghost use Rattle.promises.specs.Same.{same_request};
ghost use Rattle.audit_call_rows.specs.Asked.{asks_in, asks_look_in, asks_open_in};

use crate::asking::{asks, asks_after};
use audit_asked::is_open_of;
use audit_calls::CallRow;
use audit_same::same_request;
use call_rules::Want;
use locus_ids::{Config, FileId, Members, Mode, NoMemory};
use trace_book::Reply;

/// The look is what the call asks by the request of this number, its last or its next.
pub fn asks_look(
    config: &Config,
    members: Option<Members>,
    row: &CallRow,
    request: u16,
    look: &Want,
) -> Result<bool, NoMemory>
    ensures { (f : FileId) (w : What) → look.now ≡ want.Look f w → IfOk result (λ b. b ≡ asks_look_in config.now members request f w row.now) }
{
    let request = usize::from(request);
    let answered = row.answers().len();
    if request == 0 || request < answered || answered + 1 < request {
        return Ok(false);
    }
    let asked = asks_after(config, members, row, request - 1)?;
    Ok(same_request(&asked, look))
}

/// The open is what the call asks next, and has the number of that request.
pub fn asks_open(
    config: &Config,
    members: Option<Members>,
    row: &CallRow,
    request: u16,
    open: (Mode, FileId),
) -> Result<bool, NoMemory>
    ensures { IfOk result (λ b. b ≡ asks_open_in config.now members request open.0 open.1 row.now) }
{
    let answered = row.answers().len();
    if usize::from(request) != answered + 1 {
        return Ok(false);
    }
    let asked = asks(config, members, row)?;
    Ok(is_open_of(open.0, open.1, &asked))
}

/// The operation or the close is what the call asks next.
pub fn asks_request(
    config: &Config,
    members: Option<Members>,
    row: &CallRow,
    request: &Want,
) -> Result<bool, NoMemory>
    ensures { IfOk result (λ b. b ≡ same_request (asks_in config.now members row.now row.now.answers) request.now) }
{
    let asked = asks(config, members, row)?;
    Ok(same_request(&asked, request))
}

/// The reply is the one that the script of the call gives.
pub fn gives(
    config: &Config,
    members: Option<Members>,
    row: &CallRow,
    reply: &Reply,
) -> Result<bool, NoMemory>
    ensures { IfOk result (λ b. b ≡ gives (asks_in config.now members row.now row.now.answers) reply.now) }
{
    let asked = asks(config, members, row)?;
    Ok(audit_asked::gives(&asked, reply))
}
