ghost use Rattle.std.specs.Prelude.{IfOk};
ghost use Rattle.trace_book.specs.declared.record.Record.TheVariants as rec;
ghost use Rattle.audit_laws.specs.Tidy.Tidy.{IsTidy};
ghost use Rattle.trace_audit.specs.Steps.{Judges};

use audit_rows::{CallTold, LookTold, Replied, Told, may_answer, may_call, may_look};
use locus_ids::{Config, EpochId, NoMemory};
use trace_book::{Call, Reply, Served};

/// A call is accepted.
pub(crate) fn accept(
    config: &Config,
    told: &mut Told,
    by: CallTold,
    words: Call,
) -> Result<bool, NoMemory>
    requires { IsTidy config.now told.old }
    ensures { IfOk result (Judges config.now told.old (rec.Accept by.site by.process by.call words) told.new) }
{
    if !may_call(config, told, by, &words)? {
        return Ok(false);
    }
    told.accepted(by.site, by.process, by.call, words)?;
    Ok(true)
}

/// A look of a call is answered.
pub(crate) fn look(
    config: &Config,
    told: &mut Told,
    epoch: EpochId,
    look: LookTold<'_>,
    served: &Served,
) -> Result<bool, NoMemory>
    requires { IsTidy config.now told.old }
    ensures { IfOk result (Judges config.now told.old (rec.Look epoch look.entry.call look.entry.request look.entry.file look.entry.what.now served.now) told.new) }
{
    if !may_look(config, told, epoch, look, served)? {
        return Ok(false);
    }
    told.looked(look.call, look.request, look.file, look.what, served)?;
    Ok(true)
}

/// A call has its reply.
pub(crate) fn answer(
    config: &Config,
    told: &mut Told,
    to: Replied,
    reply: &Reply,
) -> Result<bool, NoMemory>
    requires { IsTidy config.now told.old }
    ensures { IfOk result (Judges config.now told.old (rec.Answer to.site to.process to.call reply.now) told.new) }
{
    if !may_answer(config, told, to, reply)? {
        return Ok(false);
    }
    told.answered(to.site, to.process, to.call, reply)?;
    Ok(true)
}
