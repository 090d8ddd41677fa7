ghost use Rattle.std.specs.Prelude.{◌≡◌, ◌-◌, ℕ, take, Option, None, Some, IfOk};
ghost use Rattle.audit_rules.specs.Meant.{reply_meant, what_meant};
ghost use Rattle.audit_call_rows.specs.Asked.{asks_in};

use crate::asking::{asks, asks_after};
use audit_asked::what_meant;
use audit_calls::CallRow;
use locus_ids::{Config, Members, NoMemory};
use std::alloc::Global;
use trace_book::{Reply, What};

/// What a look of the call means by its text: a look at a whole content is at the version that its script asks for.
pub fn look_meant(
    config: &Config,
    members: Option<Members>,
    row: &CallRow,
    request: u16,
    read: What,
) -> Result<What, NoMemory>
    ensures { IfOk result (λ w. w ≡ what_meant (asks_in config.now members row.now (take (request - 1) row.now.answers)) read) }
{
    let count = usize::from(request).saturating_sub(1);
    let asked = asks_after(config, members, row, count)?;
    Ok(what_meant(&asked, read))
}

/// What a reply to the call means by its text: the one that its script gives, where that is read so.
pub fn reply_meant(
    alloc: Global,
    config: &Config,
    members: Option<Members>,
    row: &CallRow,
    read: Reply,
) -> Result<Reply, NoMemory>
    ensures { IfOk result (λ r. r ≡ reply_meant (asks_in config.now members row.now row.now.answers) read) }
{
    let asked = asks(config, members, row)?;
    audit_asked::reply_meant(alloc, asked, read)
}
