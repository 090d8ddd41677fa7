// What is told.
ghost use Rattle.std.specs.Prelude.{◌≡◌, ◌∷◌, [], ◌++◌, cond, OnOk, IfOk};
ghost use Rattle.the_run.specs.Disks.{new_gate};
ghost use Rattle.the_run.specs.Worlds.{cause_of};
ghost use Rattle.site_place.specs.Places.{cut_by};
ghost use Rattle.packet_order.specs.Orders.{behind};

use crate::DiskScript;
use crate::script::{cause_of, leave_of};
use cut_gates::is_new_open;
use locus_ids::{NoMemory, SiteId};
use packet_order::Dispatch;
use std::alloc::Global;
use trace_book::{Record, StopCause};
use wire_messages::Outbox;

/// Tells one record, behind all others.
fn tell(alloc: Global, what: Record, out: &mut Dispatch) -> Result<(), NoMemory>
    ensures { OnOk result (out.new ≡ behind out.old (record { packets = []; records = what ∷ [] })) }
{
    let mut told = Outbox::new(alloc);
    told.note(what)?;
    out.add(told)?;
    Ok(())
}

/// One record is told, and nothing is sent.
pub(crate) fn told_alone(alloc: Global, what: Record) -> Result<Dispatch, NoMemory>
    ensures { IfOk result (λ out. out ≡ record { packets = []; records = what ∷ [] }) }
{
    let mut out = Dispatch::new(alloc);
    tell(alloc, what, &mut out)?;
    Ok(out)
}

/// A site has stopped.
pub(crate) fn stopped(me: SiteId, cause: StopCause) -> Record
    ensures { result ≡ Record.Stopped me cause }
{
    Record::Stopped {
        site: me.get(),
        cause,
    }
}

/// What was told, where it counts; else nothing. Nothing is sent.
fn told_where(alloc: Global, counts: bool, told: Dispatch) -> Dispatch
    ensures { result ≡ record { packets = []; records = cond counts told.records [] } }
{
    if !counts {
        drop(told);
        return Dispatch::new(alloc);
    }
    let mut kept = told;
    kept.drop_packets();
    kept
}

/// What is told of a site that stopped in the write of a version of so many pages and tables: first what the event had told of that
/// version, where it is on the disk. Nothing is sent.
pub(crate) fn told_of_cut(
    alloc: Global,
    me: SiteId,
    blocks: usize,
    script: DiskScript,
    told: Dispatch,
) -> Result<Dispatch, NoMemory>
    ensures { IfOk result (λ out. out ≡ record { packets = []; records = cond (new_gate blocks (cut_by script.how) script.left) told.records [] ++ Record.Stopped me (cause_of (cut_by script.how)) ∷ [] }) }
{
    let is_there = is_new_open(blocks, leave_of(script.how), script.left);
    let mut out = told_where(alloc, is_there, told);
    tell(alloc, stopped(me, cause_of(script.how)), &mut out)?;
    Ok(out)
}
