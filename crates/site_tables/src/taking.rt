// What comes to the synchronization site of some group, by its kind.
ghost use Rattle.std.specs.Prelude.{◌≡◌, ◌++◌, OnOk};
ghost use Rattle.std.specs.List.{flat_map};
ghost use Rattle.role_steps.specs.Reports.{sync_repeats};
ghost use Rattle.using_site.specs.Steps.{Gives};
ghost use Rattle.site_tables.specs.Tables.{tables_take};

use crate::at_group::{on_have, on_look, on_open, on_report};
use crate::at_instance::{on_closed, on_opened};
use css_core::{Css, LookRequest, OpenRequest};
use keyed_tables::SortedTable;
use locus_ids::{NoMemory, SiteId};
use site_frame::SiteFrame;
use wire_messages::{Body, Outbox};

/// Takes what a member sent, where it is for a synchronization site.
pub fn take(
    tables: &mut SortedTable<Css>,
    frame: &SiteFrame,
    from: SiteId,
    body: Body,
    out: &mut Outbox,
) -> Result<(), NoMemory>
    ensures { OnOk result (Gives (tables_take frame.now from body tables.old) tables.new out.old out.new) }
{
    match body {
        Body::Report { group, copies } => {
            on_report(tables, frame, from, group, copies.as_slice(), out)
        }
        Body::Open {
            serial,
            call,
            process,
            request,
            file,
            how,
        } => {
            let asked = OpenRequest {
                serial,
                call,
                process,
                request,
                file,
                how,
            };
            on_open(tables, frame, from, &asked, out)
        }
        Body::Opened { inst, answer } => on_opened(tables, frame, inst, answer, out),
        Body::Closed { inst, made } => on_closed(tables, frame, from, inst, made, out),
        Body::Look {
            call,
            process,
            request,
            take,
            file,
            what,
        } => {
            let look = LookRequest {
                call,
                process,
                request,
                take,
                file,
                what,
            };
            on_look(tables, frame, from, &look, out)
        }
        Body::Have { file, stamp } => on_have(tables, from, file, stamp),
        _ => Ok(()),
    }
}

/// A tick: the notices of all groups that have started.
pub fn repeat_notices(tables: &[Css], frame: &SiteFrame, out: &mut Outbox) -> Result<(), NoMemory>
    ensures packets { OnOk result (out.new.packets ≡ out.old.packets ++ flat_map (sync_repeats frame.now) tables.now) }
    ensures records { OnOk result (out.new.records ≡ out.old.records) }
{
    for table in tables {
        table.repeats(frame, out)?;
    }
    Ok(())
}
