// What comes to the table that was asked for an instance.
ghost use Rattle.std.specs.Prelude.{◌≡◌, OnOk};
ghost use Rattle.role_steps.specs.Reports.{on_closed};
ghost use Rattle.role_steps.specs.Opens.{on_opened};
ghost use Rattle.role_steps.specs.Tables.{first_that};
ghost use Rattle.the_run.specs.Steps.{is_opened_in};
ghost use Rattle.role_steps.specs.Adoption.{table_group};
ghost use Rattle.keyed_tables.specs.Rising.{Rising};
ghost use Rattle.using_site.specs.Steps.{Gives};
ghost use Rattle.site_tables.specs.Tables.{group_in, tables_with};

use crate::removing::take_table;
use css_core::Css;
use keyed_tables::SortedTable;
use locus_ids::{NoMemory, Serial, SiteId};
use site_frame::SiteFrame;
use wire_messages::{MadeVersion, OpenedAs, Outbox};

/// The group of the first table that was asked for the instance.
fn group_opened(tables: &SortedTable<Css>, inst: Serial) -> Option<u8>
    ensures group { result ≡ group_in (first_that (is_opened_in inst) tables.now) }
    ensures rising { Rising table_group tables.now }
{
    group_among(tables.as_slice(), inst)
}

fn group_among(tables: &[Css], inst: Serial) -> Option<u8>
    ensures { result ≡ group_in (first_that (is_opened_in inst) tables.now) }
{
    for table in tables {
        if table.is_opened(inst) {
            return Some(table.group());
        }
    }
    None
}

/// A storage site answers an open.
pub(crate) fn on_opened(
    tables: &mut SortedTable<Css>,
    frame: &SiteFrame,
    inst: Serial,
    answer: OpenedAs,
    out: &mut Outbox,
) -> Result<(), NoMemory>
    ensures { OnOk result (Gives (tables_with (on_opened frame.now inst answer) inst tables.old) tables.new out.old out.new) }
{
    let Some(group) = group_opened(tables, inst) else {
        return Ok(());
    };
    let Some(mut table) = take_table(tables, group) else {
        return Ok(());
    };
    table.on_opened(frame, inst, answer, out)?;
    tables.put(table)?;
    Ok(())
}

/// A storage site closes an instance.
pub(crate) fn on_closed(
    tables: &mut SortedTable<Css>,
    frame: &SiteFrame,
    from: SiteId,
    inst: Serial,
    made: Option<MadeVersion>,
    out: &mut Outbox,
) -> Result<(), NoMemory>
    ensures { OnOk result (Gives (tables_with (on_closed frame.now from inst made) inst tables.old) tables.new out.old out.new) }
{
    let Some(group) = group_opened(tables, inst) else {
        return Ok(());
    };
    let Some(mut table) = take_table(tables, group) else {
        return Ok(());
    };
    table.on_closed(frame, from, inst, made, out)?;
    tables.put(table)?;
    Ok(())
}
