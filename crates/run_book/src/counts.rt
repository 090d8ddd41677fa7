ghost use Rattle.std.specs.Prelude.{◌≡◌, ℕ, ◌+◌, not, IfOk};
ghost use Rattle.locus_ids.specs.declared.ids.CallId.{CallId};
ghost use Rattle.trace_book.specs.declared.record.Record.TheVariants as says;
ghost use Rattle.packet_order.specs.Orders.{together};
ghost use Rattle.the_run.specs.Commands.{counted_in, is_ok};
ghost use Rattle.run_book.specs.Writings.{counts_after, counts_in};

use locus_ids::NoMemory;
use packet_order::Part;
use trace_book::{Record, Reply};

/// How many records of some kinds a run has told.
#[derive(Clone, Copy)]
pub struct RunCounts {
    pub calls: u64,
    pub replies: u64,
    /// The replies that aren't refusals.
    pub ok: u64,
    pub commits: u64,
    pub adopts: u64,
    pub joins: u64,
    pub voids: u64,
}

impl RunCounts {
    ghost use Rattle.the_run.specs.Commands.{no_counts};

    /// No record was told.
    pub fn new() -> RunCounts
        ensures { counts_in result ≡ no_counts }
    {
        RunCounts {
            calls: 0,
            replies: 0,
            ok: 0,
            commits: 0,
            adopts: 0,
            joins: 0,
            voids: 0,
        }
    }
}

fn one_more(count: u64) -> Result<u64, NoMemory>
    ensures { IfOk result (λ more. more ≡ count + 1) }
{
    match count.checked_add(1) {
        Some(more) => Ok(more),
        None => Err(NoMemory),
    }
}

/// The counts with a reply more.
fn with_reply(counts: RunCounts, reply: &Reply) -> Result<RunCounts, NoMemory>
    ensures { IfOk result (λ made. (site process : ℕ) (call : CallId) → counts_in made ≡ counted_in (counts_in counts) (says.Answer site process call reply.now)) }
{
    let replies = one_more(counts.replies)?;
    if is_refusal(reply) {
        return Ok(RunCounts { replies, ..counts });
    }
    let ok = one_more(counts.ok)?;
    Ok(RunCounts {
        replies,
        ok,
        ..counts
    })
}

fn is_refusal(reply: &Reply) -> bool
    ensures { result ≡ not (is_ok reply.now) }
{
    match reply {
        Reply::No { .. } => true,
        Reply::Made { .. } | Reply::Done | Reply::Names { .. } | Reply::Stat { .. } => false,
        Reply::Opened { .. } | Reply::Data { .. } => false,
        Reply::Committed { .. } | Reply::Closed { .. } => false,
    }
}

/// The counts with a record more.
fn with_record(counts: RunCounts, what: &Record) -> Result<RunCounts, NoMemory>
    ensures { IfOk result (λ made. counts_in made ≡ counted_in (counts_in counts) what.now) }
{
    match what {
        Record::Accept { .. } => {
            let calls = one_more(counts.calls)?;
            Ok(RunCounts { calls, ..counts })
        }
        Record::Answer { reply, .. } => with_reply(counts, reply),
        Record::Commit { .. } => {
            let commits = one_more(counts.commits)?;
            Ok(RunCounts { commits, ..counts })
        }
        Record::Adopt { .. } => {
            let adopts = one_more(counts.adopts)?;
            Ok(RunCounts { adopts, ..counts })
        }
        Record::Join { .. } => {
            let joins = one_more(counts.joins)?;
            Ok(RunCounts { joins, ..counts })
        }
        Record::Void => {
            let voids = one_more(counts.voids)?;
            Ok(RunCounts { voids, ..counts })
        }
        Record::Up { .. } | Record::Stopped { .. } | Record::Leave { .. } => Ok(counts),
        Record::Start { .. } | Record::Look { .. } | Record::Grant { .. } => Ok(counts),
        Record::Refuse { .. } | Record::Act { .. } | Record::Release { .. } => Ok(counts),
        Record::Packet { .. } | Record::Budget => Ok(counts),
    }
}

/// The counts with these records.
fn with_records(counts: RunCounts, records: &[Record]) -> Result<RunCounts, NoMemory>
    ensures { IfOk result (λ made. counts_in made ≡ counts_after (counts_in counts) records.now) }
{
    let mut made = counts;
    for what in records {
        made = with_record(made, what)?;
    }
    Ok(made)
}

/// The counts with the records of all parts.
pub(crate) fn with_parts(counts: RunCounts, parts: &[Part]) -> Result<RunCounts, NoMemory>
    ensures { IfOk result (λ made. counts_in made ≡ counts_after (counts_in counts) (together parts.now).records) }
{
    let mut made = counts;
    for part in parts {
        made = with_records(made, part.records())?;
    }
    Ok(made)
}
