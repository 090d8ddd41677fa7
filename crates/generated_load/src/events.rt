// The lines of one event of the load, by its kind.
ghost use Rattle.std.specs.Prelude.{◌≡◌, ℕ, ◌<◌, ◌∷◌, [], ◌++◌, codes, IfOk, OnOk};
ghost use Rattle.trace_book.specs.declared.call.Call.TheVariants as call;
ghost use Rattle.the_run.specs.Commands.{load_call, load_case, load_path, next_site, parts_from, reads_it, rejoins, resolves, restarts, writes_number};
ghost use Rattle.generated_load.specs.Draws.{drawn_of};
ghost use Rattle.generated_load.specs.Pieces.{events_of};

use crate::draws::{Draw, site_of};
use crate::event_lines::{add, add_call, add_settle};
use locus_ids::{Bytes, NoMemory, SiteId};
use schedule_lines::Line;
use std::alloc::Global;
use trace_book::{Call, OpenMode};

/// `/f` and the digit of a file.
fn path_of(alloc: Global, name: u8) -> Result<Bytes, NoMemory>
    requires { name < 8 }
    ensures { IfOk result (λ path. path ≡ load_path name) }
{
    let mut path = Bytes::from_slice(alloc, b"/f")?;
    path.push(b'0' + name)?;
    Ok(path)
}

fn add_create(alloc: Global, draw: &Draw, lines: &mut Vec<Line>) -> Result<(), NoMemory>
    requires { draw.now.name < 8 }
    ensures { OnOk result (events_of lines.new.items ≡ events_of lines.old.items ++ load_call draw.now.site 1 (call.Create (load_path draw.now.name) None)) }
{
    let path = path_of(alloc, draw.name)?;
    add_call(lines, draw.site, 1, Call::Create { path, sites: None })
}

fn add_unlink(alloc: Global, draw: &Draw, lines: &mut Vec<Line>) -> Result<(), NoMemory>
    requires { draw.now.name < 8 }
    ensures { OnOk result (events_of lines.new.items ≡ events_of lines.old.items ++ load_call draw.now.site 1 (call.Unlink (load_path draw.now.name))) }
{
    let path = path_of(alloc, draw.name)?;
    add_call(lines, draw.site, 1, Call::Unlink { path })
}

fn add_list(alloc: Global, draw: &Draw, lines: &mut Vec<Line>) -> Result<(), NoMemory>
    ensures { OnOk result (events_of lines.new.items ≡ events_of lines.old.items ++ load_call draw.now.site 1 (call.List (codes "/"))) }
{
    let path = Bytes::from_slice(alloc, b"/")?;
    add_call(lines, draw.site, 1, Call::List { path })
}

/// The file gets the number of the event.
fn add_write(alloc: Global, event: u32, draw: &Draw, lines: &mut Vec<Line>) -> Result<(), NoMemory>
    requires { draw.now.name < 8 }
    ensures { OnOk result (events_of lines.new.items ≡ events_of lines.old.items ++ writes_number event (drawn_of draw.now)) }
{
    let path = path_of(alloc, draw.name)?;
    let bytes = Bytes::from_slice(alloc, event.to_be_bytes().as_slice())?;
    let mode = OpenMode::Write;
    add_call(lines, draw.site, 1, Call::Open { path, mode })?;
    add_call(
        lines,
        draw.site,
        1,
        Call::Write {
            fd: 0,
            at: 0,
            bytes,
        },
    )?;
    add_call(lines, draw.site, 1, Call::Close { fd: 0 })
}

fn add_read(alloc: Global, draw: &Draw, lines: &mut Vec<Line>) -> Result<(), NoMemory>
    requires { draw.now.name < 8 }
    ensures { OnOk result (events_of lines.new.items ≡ events_of lines.old.items ++ reads_it (drawn_of draw.now)) }
{
    let path = path_of(alloc, draw.name)?;
    let mode = OpenMode::Read;
    add_call(lines, draw.site, 1, Call::Open { path, mode })?;
    add_call(
        lines,
        draw.site,
        1,
        Call::Read {
            fd: 0,
            at: 0,
            len: 8,
        },
    )?;
    add_call(lines, draw.site, 1, Call::Close { fd: 0 })
}

fn add_resolve(alloc: Global, draw: &Draw, lines: &mut Vec<Line>) -> Result<(), NoMemory>
    requires { draw.now.name < 8 }
    ensures { OnOk result (events_of lines.new.items ≡ events_of lines.old.items ++ resolves (drawn_of draw.now)) }
{
    let path = path_of(alloc, draw.name)?;
    let mode = OpenMode::Resolve {
        site: draw.site.get(),
    };
    add_call(lines, draw.site, 1, Call::Open { path, mode })?;
    add_call(lines, draw.site, 1, Call::Close { fd: 0 })
}

/// The circuit to the next site is cut, and both sites part from those that they don't reach.
fn add_part(site: SiteId, lines: &mut Vec<Line>) -> Result<(), NoMemory>
    ensures { OnOk result (events_of lines.new.items ≡ events_of lines.old.items ++ parts_from site (next_site site)) }
{
    let other = site_of(u32::from(site.get()));
    add(lines, Line::Down { one: site, other })?;
    add(lines, Line::Part { site })?;
    add_settle(lines)?;
    add(lines, Line::Part { site: other })?;
    add_settle(lines)
}

fn add_rejoin(site: SiteId, lines: &mut Vec<Line>) -> Result<(), NoMemory>
    ensures { OnOk result (events_of lines.new.items ≡ events_of lines.old.items ++ rejoins site (next_site site)) }
{
    let other = site_of(u32::from(site.get()));
    add(lines, Line::Up { one: site, other })?;
    add(lines, Line::Merge { site })?;
    add_settle(lines)
}

fn add_restart(site: SiteId, lines: &mut Vec<Line>) -> Result<(), NoMemory>
    ensures { OnOk result (events_of lines.new.items ≡ events_of lines.old.items ++ restarts site) }
{
    add(lines, Line::Stop { site })?;
    add(lines, Line::Boot { site })?;
    add(lines, Line::Merge { site })?;
    add_settle(lines)
}

/// The lines of an event, by what was drawn for it.
pub(crate) fn add_event(
    alloc: Global,
    event: u32,
    draw: &Draw,
    lines: &mut Vec<Line>,
) -> Result<(), NoMemory>
    requires { draw.now.name < 8 }
    ensures { OnOk result (events_of lines.new.items ≡ events_of lines.old.items ++ load_case event (drawn_of draw.now) draw.now.what) }
{
    match draw.what {
        0..=3 => add_create(alloc, draw, lines),
        4..=7 => add_write(alloc, event, draw, lines),
        8..=9 => add_read(alloc, draw, lines),
        10 => add_unlink(alloc, draw, lines),
        11 => add_part(draw.site, lines),
        12 => add_rejoin(draw.site, lines),
        13 => add_restart(draw.site, lines),
        14 => add_resolve(alloc, draw, lines),
        _ => add_list(alloc, draw, lines),
    }
}
