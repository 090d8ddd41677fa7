ghost use Rattle.std.specs.Prelude.{◌≡◌, IfOk};
ghost use Rattle.audit_rules.specs.Meant.{asked_by, asked_next, call_named, reply_meant, what_meant};
ghost use Rattle.audit_told_calls.specs.Meanings.{is_whole};
ghost use Rattle.audit_told_calls.specs.Once.{OneEach};

use crate::asked::{asks, asks_after};
use audit_past::Told;
use locus_ids::{CallId, Config, NoMemory};
use std::alloc::Global;
use trace_book::{Reply, What};

/// What a look means by its text: a look at a whole content is at the version that the script of its call asks for.
pub fn look_meant(
    config: &Config,
    told: &Told,
    id: CallId,
    request: u16,
    read: What,
) -> Result<What, NoMemory>
    requires { OneEach told.now }
    ensures { IfOk result (λ w. w ≡ what_meant (asked_by config.now told.now request (call_named told.now id)) read) }
{
    if !is_whole(&read) {
        return Ok(read);
    }
    let Some(row) = told.calls().find(id) else {
        return Ok(read);
    };
    let count = usize::from(request).saturating_sub(1);
    let asked = asks_after(config, told, row, count)?;
    Ok(audit_asked::what_meant(&asked, read))
}

/// The look is at a whole content.
fn is_whole(read: &What) -> bool
    ensures { result ≡ is_whole read.now }
{
    matches!(read, What::Whole { stamp: _ })
}

/// What a reply means by its text: the one that the script of its call gives, where that is read so.
pub fn reply_meant(
    alloc: Global,
    config: &Config,
    told: &Told,
    id: CallId,
    read: Reply,
) -> Result<Reply, NoMemory>
    requires { OneEach told.now }
    ensures { IfOk result (λ r. r ≡ reply_meant (asked_next config.now told.now (call_named told.now id)) read) }
{
    let Some(row) = told.calls().find(id) else {
        return Ok(read);
    };
    let asked = asks(config, told, row)?;
    audit_asked::reply_meant(alloc, asked, read)
}
