// Lines at the end of others, and a call with the settle after it.
ghost use Rattle.std.specs.Prelude.{◌≡◌, ℕ, ◌∷◌, [], ◌++◌, OnOk};
ghost use Rattle.schedule_lines.specs.declared.line.ScheduleLine.TheVariants.{Event};
ghost use Rattle.the_run.specs.Commands.{load_call, settle_line};
ghost use Rattle.generated_load.specs.Pieces.{events_of};

use locus_ids::{NoMemory, SiteId};
use schedule_lines::Line;
use trace_book::Call;

/// The deliveries of a settle.
const MOST: u32 = 20_000;

pub(crate) fn add(lines: &mut Vec<Line>, line: Line) -> Result<(), NoMemory>
    ensures { OnOk result (events_of lines.new.items ≡ events_of lines.old.items ++ Event line ∷ []) }
{
    lines.push(line)?;
    Ok(())
}

pub(crate) fn add_settle(lines: &mut Vec<Line>) -> Result<(), NoMemory>
    ensures { OnOk result (events_of lines.new.items ≡ events_of lines.old.items ++ settle_line ∷ []) }
{
    add(lines, Line::Settle { most: MOST })
}

/// A call of a process and a settle.
pub(crate) fn add_call(
    lines: &mut Vec<Line>,
    site: SiteId,
    process: u8,
    call: Call,
) -> Result<(), NoMemory>
    ensures { OnOk result (events_of lines.new.items ≡ events_of lines.old.items ++ load_call site process call) }
{
    add(
        lines,
        Line::Call {
            site,
            process,
            call,
        },
    )?;
    add_settle(lines)
}
