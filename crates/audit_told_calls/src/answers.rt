ghost use Rattle.std.specs.Prelude.{◌≡◌, ◌||◌, IfOk};
ghost use Rattle.promises.specs.Rows.{is_changed, is_due, is_just_left, is_scripted, may_answer, waits_at};
ghost use Rattle.audit_past.specs.Seen.{last_of};
ghost use Rattle.audit_told_calls.specs.Once.{OneEach};

use crate::asked::asks;
use audit_asked::gives;
use audit_call_rows::{is_home, is_of_last};
use audit_calls::CallRow;
use audit_past::{LastSeen, Told};
use locus_ids::{CallId, Config, NoMemory, Refusal};
use trace_book::Reply;

/// Whose reply a record tells of.
#[derive(Clone, Copy)]
pub struct Replied {
    pub site: u8,
    pub process: u8,
    pub call: CallId,
}

/// A call that waits is answered as its script says; where its site has left its epoch, that this has changed.
pub fn may_answer(
    config: &Config,
    told: &Told,
    to: Replied,
    reply: &Reply,
) -> Result<bool, NoMemory>
    requires { OneEach told.now }
    ensures { IfOk result (λ b. b ≡ may_answer config.now told.now to.site to.process to.call reply.now) }
{
    let Some(row) = told.calls().find(to.call) else {
        return Ok(false);
    };
    if !waits_for(row, to) {
        return Ok(false);
    }
    is_answered_so(config, told, row, reply)
}

/// The call waits, of this process at this site.
fn waits_for(row: &CallRow, to: Replied) -> bool
    ensures { result ≡ waits_at to.site to.process row.now }
{
    row.waits() && (row.id().site == to.site && row.process() == to.process)
}

/// The reply is as the script of the call says, or says that its epoch has changed.
fn is_answered_so(
    config: &Config,
    told: &Told,
    row: &CallRow,
    reply: &Reply,
) -> Result<bool, NoMemory>
    requires { OneEach told.now }
    ensures { IfOk result (λ b. b ≡ (is_scripted config.now told.now row.now reply.now || is_changed told.now row.now reply.now)) }
{
    let scripted = is_scripted(config, told, row, reply)?;
    Ok(scripted || is_changed(told, row, reply))
}

/// The reply is the one that the script of the call gives.
fn is_scripted(config: &Config, told: &Told, row: &CallRow, reply: &Reply) -> Result<bool, NoMemory>
    requires { OneEach told.now }
    ensures { IfOk result (λ b. b ≡ is_scripted config.now told.now row.now reply.now) }
{
    let site = told.sites().site_at(row.id().site);
    if !is_home(site, row) {
        return Ok(false);
    }
    if !is_due(told.seen(), row) {
        return Ok(false);
    }
    let asked = asks(config, told, row)?;
    Ok(gives(&asked, reply))
}

/// A request of the call was answered, or its call record is the last.
fn is_due(seen: LastSeen, row: &CallRow) -> bool
    ensures { result ≡ is_due (last_of seen) row.now }
{
    let answered = 0 < row.answers().len();
    match seen {
        LastSeen::Accepting { call } => call == row.id() || answered,
        _ => answered,
    }
}

/// The reply says that the call's epoch has changed, directly after its site has left it.
fn is_changed(told: &Told, row: &CallRow, reply: &Reply) -> bool
    ensures { result ≡ is_changed told.now row.now reply.now }
{
    match reply {
        Reply::No {
            why: Refusal::Changed { epoch },
        } => {
            let site = told.sites().site_at(row.id().site);
            is_of_last(site, row, *epoch) && is_just_left(told.seen(), row.id().site, row.process())
        }
        _ => false,
    }
}

/// The last record was the leave of the site, or such a reply of a process up to this one.
fn is_just_left(seen: LastSeen, site: u8, process: u8) -> bool
    ensures { result ≡ is_just_left (last_of seen) site process }
{
    match seen {
        LastSeen::Leaving {
            site: left,
            process: last,
        } => left == site && last <= process,
        _ => false,
    }
}
