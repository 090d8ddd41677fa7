// What comes to the table of a group.
ghost use Rattle.std.specs.Prelude.{◌≡◌, OnOk};
ghost use Rattle.role_steps.specs.Reports.{on_report, on_open, on_look, on_have};
ghost use Rattle.using_site.specs.Steps.{Gives};
ghost use Rattle.site_tables.specs.Tables.{noting_own, tables_at};

use crate::removing::take_table;
use css_core::{Css, LookRequest, OpenRequest};
use keyed_tables::SortedTable;
use locus_ids::{FileId, NoMemory, SiteId, Stamp};
use site_frame::SiteFrame;
use wire_messages::{Outbox, ReportedCopy};

/// A report of a member.
pub(crate) fn on_report(
    tables: &mut SortedTable<Css>,
    frame: &SiteFrame,
    from: SiteId,
    group: u8,
    copies: &[ReportedCopy],
    out: &mut Outbox,
) -> Result<(), NoMemory>
    ensures { OnOk result (Gives (tables_at (on_report frame.now from copies.now) group tables.old) tables.new out.old out.new) }
{
    let Some(mut table) = take_table(tables, group) else {
        return Ok(());
    };
    table.on_report(frame, from, copies, out)?;
    tables.put(table)?;
    Ok(())
}

/// An open that a using site asks for.
pub(crate) fn on_open(
    tables: &mut SortedTable<Css>,
    frame: &SiteFrame,
    from: SiteId,
    asked: &OpenRequest,
    out: &mut Outbox,
) -> Result<(), NoMemory>
    ensures { OnOk result (Gives (tables_at (on_open frame.now from asked.now) asked.now.file.group tables.old) tables.new out.old out.new) }
{
    let Some(mut table) = take_table(tables, asked.file.group) else {
        return Ok(());
    };
    table.on_open(frame, from, asked, out)?;
    tables.put(table)?;
    Ok(())
}

/// A look that a using site asks for.
pub(crate) fn on_look(
    tables: &mut SortedTable<Css>,
    frame: &SiteFrame,
    from: SiteId,
    look: &LookRequest,
    out: &mut Outbox,
) -> Result<(), NoMemory>
    ensures { OnOk result (Gives (tables_at (on_look frame.now from look.now) look.now.file.group tables.old) tables.new out.old out.new) }
{
    let Some(mut table) = take_table(tables, look.file.group) else {
        return Ok(());
    };
    table.on_look(frame, from, look, out)?;
    tables.put(table)?;
    Ok(())
}

/// A site tells which version of a file it holds.
pub(crate) fn on_have(
    tables: &mut SortedTable<Css>,
    from: SiteId,
    file: FileId,
    stamp: Stamp,
) -> Result<(), NoMemory>
    ensures { OnOk result (tables.new ≡ (tables_at (on_have from file stamp) file.group tables.old).view) }
{
    let Some(mut table) = take_table(tables, file.group) else {
        return Ok(());
    };
    table.on_have(from, file, stamp)?;
    tables.put(table)?;
    Ok(())
}

/// The site itself has adopted this version of a file, and holds it now.
pub fn notes_own(
    tables: &mut SortedTable<Css>,
    me: SiteId,
    file: FileId,
    stamp: Stamp,
) -> Result<(), NoMemory>
    ensures { OnOk result (tables.new ≡ noting_own me file stamp tables.old) }
{
    let Some(mut table) = take_table(tables, file.group) else {
        return Ok(());
    };
    table.notes_own(me, file, stamp)?;
    tables.put(table)?;
    Ok(())
}
