// An epoch is left: each call that waits is answered so at once.
ghost use Rattle.std.specs.Prelude.{◌≡◌, ◌++◌, [], ◌∷◌, OnOk};
ghost use Rattle.role_steps.specs.Using.{changed_records, reply_record};
ghost use Rattle.locus_ids.specs.declared.refusal.Refusal.TheVariants as refusal;
ghost use Rattle.trace_book.specs.declared.reply.Reply.TheVariants as reply;
ghost use Rattle.site_frame.specs.Printed.{printed};

use crate::caller::own_call;
use crate::waiting::Waiting;
use keyed_tables::SortedTable;
use locus_ids::{EpochId, NoMemory, Refusal, SiteId};
use trace_book::{Record, Reply};
use wire_messages::Outbox;

/// Each of these calls is answered that the epoch was left, in the order in which they stand, and none waits any more.
pub fn answer_changed(
    me: SiteId,
    boot: u32,
    epoch: EpochId,
    waiting: &mut SortedTable<Waiting>,
    out: &mut Outbox,
) -> Result<(), NoMemory>
    ensures left { OnOk result (waiting.new ≡ []) }
    ensures packets { OnOk result (out.new.packets ≡ out.old.packets) }
    ensures records { OnOk result (out.new.records ≡ out.old.records ++ printed (changed_records me boot epoch waiting.old)) }
{
    let rows = waiting.as_slice();
    for row in rows {
        tell_changed(me, boot, epoch, row, out)?;
    }
    waiting.clear();
    Ok(())
}

/// A waiting call is answered that the epoch was left.
fn tell_changed(
    me: SiteId,
    boot: u32,
    epoch: EpochId,
    waiting: &Waiting,
    out: &mut Outbox,
) -> Result<(), NoMemory>
    ensures packets { OnOk result (out.new.packets ≡ out.old.packets) }
    ensures records { OnOk result (out.new.records ≡ out.old.records ++ printed (reply_record me boot waiting.now (reply.No (refusal.Changed epoch)) ∷ [])) }
{
    out.note(Record::Answer {
        site: me.get(),
        process: waiting.caller.process,
        call: own_call(me, boot, waiting.caller.call),
        reply: Reply::No {
            why: Refusal::Changed { epoch },
        },
    })
}
