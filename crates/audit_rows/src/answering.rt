ghost use Rattle.std.specs.Prelude.{◌≡◌, IfOk};
ghost use Rattle.trace_book.specs.declared.record.Record.TheVariants as rec;
ghost use Rattle.promises.specs.Past.{Past};
ghost use Rattle.audit_rules.specs.Consistent.{may_stand};
ghost use Rattle.audit_rules.specs.Turns.{is_in_turn};
ghost use Rattle.audit_told_calls.specs.Once.{OneEach};

use audit_calls::Calls;
use audit_told_calls::{Replied, Told};
use locus_ids::{Config, NoMemory, Refusal};
use trace_book::Reply;

/// A call that waits is answered as its script says; where its site has left its epoch, that this has changed, once no call of a
/// lower process waits for that.
pub fn may_answer(
    config: &Config,
    told: &Told,
    to: Replied,
    reply: &Reply,
) -> Result<bool, NoMemory>
    requires { OneEach told.now }
    ensures { IfOk result (λ yes. yes ≡ may_stand config.now told.now (rec.Answer to.site to.process to.call reply.now)) }
{
    if !audit_told_calls::may_answer(config, told, to, reply)? {
        return Ok(false);
    }
    Ok(is_in_turn(told.calls(), to, reply))
}

/// A reply that the epoch has changed is in its turn.
fn is_in_turn(calls: &Calls, to: Replied, reply: &Reply) -> bool
    ensures { (p : Past) → calls.now ≡ p.calls → result ≡ is_in_turn p (rec.Answer to.site to.process to.call reply.now) }
{
    match reply {
        Reply::No {
            why: Refusal::Changed { epoch },
        } => !calls.waits_below(to.site, to.process, *epoch),
        _ => true,
    }
}
