// The event lines before the first event of the load, and those after the last.
ghost use Rattle.std.specs.Prelude.{◌≡◌, ◌++◌, [], codes, IfOk, OnOk};
ghost use Rattle.trace_book.specs.declared.call.Call.TheVariants as call;
ghost use Rattle.the_run.specs.Commands.{closing_lines, load_call, opening_lines};
ghost use Rattle.generated_load.specs.Pieces.{events_of, header_lines};

use crate::draws::numbered;
use crate::event_lines::{add, add_call, add_settle};
use locus_ids::{Bytes, NoMemory, SiteId};
use schedule_lines::Line;
use std::alloc::Global;
use trace_book::Call;

/// The event lines of the opening, which settles with so many deliveries at most.
pub fn opening_lines(alloc: Global, most: u32) -> Result<Vec<Line>, NoMemory>
    ensures { IfOk result (λ made. opening_lines most ≡ header_lines ++ events_of made.items) }
{
    let mut lines = Vec::new(alloc);
    add(&mut lines, Line::Merge { site: numbered(1) })?;
    add(&mut lines, Line::Settle { most })?;
    Ok(lines)
}

/// All circuits are mended, the sites merge, and each lists the root.
pub fn closing_lines(alloc: Global) -> Result<Vec<Line>, NoMemory>
    ensures { IfOk result (λ made. events_of made.items ≡ closing_lines) }
{
    let one = numbered(1);
    let two = numbered(2);
    let three = numbered(3);
    let mut lines = Vec::new(alloc);
    add(&mut lines, Line::Up { one, other: two })?;
    add(&mut lines, Line::Up { one, other: three })?;
    add(
        &mut lines,
        Line::Up {
            one: two,
            other: three,
        },
    )?;
    add(&mut lines, Line::Merge { site: one })?;
    add_settle(&mut lines)?;
    add_settle(&mut lines)?;
    add_settle(&mut lines)?;
    add_last_list(alloc, one, &mut lines)?;
    add_last_list(alloc, two, &mut lines)?;
    add_last_list(alloc, three, &mut lines)?;
    Ok(lines)
}

fn add_last_list(alloc: Global, site: SiteId, lines: &mut Vec<Line>) -> Result<(), NoMemory>
    ensures { OnOk result (events_of lines.new.items ≡ events_of lines.old.items ++ load_call site 2 (call.List (codes "/"))) }
{
    let path = Bytes::from_slice(alloc, b"/")?;
    add_call(lines, site, 2, Call::List { path })
}
