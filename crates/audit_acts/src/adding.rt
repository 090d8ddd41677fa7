ghost use Rattle.std.specs.Prelude.{◌≡◌, ◌-◌, ◌+◌, ◌≤◌, [], length, IfOk};
ghost use Rattle.std.specs.List.{find};
ghost use Rattle.locus_ids.specs.Sizes.{file_bytes_max, pack_pages};
ghost use Rattle.tree_model.specs.Histories.{stamped_content};
ghost use Rattle.tree_model.specs.Working.{are_several};
ghost use Rattle.promises.specs.Past.{kept_in};
ghost use Rattle.audit_instances.specs.Rows.{pages_changed};
ghost use Rattle.audit_tree.specs.Adding.{IsShort, added_on, seen_by};
ghost use Rattle.audit_tree.specs.declared.acting.Added.TheVariants.{Join};
ghost use Rattle.promises.specs.Tree.{is_spent, is_target, mended, parents_of};
ghost use Rattle.audit_acts.specs.Knowing.{knowing, of_history};

use crate::keeping::kept_in;
use crate::mending::mended;
use audit_copies::Known;
use audit_instances::{InstanceRow, Instances};
use audit_tree::{Added, are_several, merges};
use audit_versions::Versions;
use locus_ids::sizes::PACK_PAGES;
use locus_ids::{Bytes, FileId, NoMemory, Stamp, Stamps};
use std::alloc::Global;
use trace_book::Op;

/// What the tree adds to the words of an operation on an open instance.
pub fn added_for(
    alloc: Global,
    h: &Versions,
    known: &Known,
    opened: &Instances,
    op: &Op,
    x: &InstanceRow,
) -> Result<Added, NoMemory>
    ensures value { IfOk result (λ added. added ≡ added_on (of_history h.now) (knowing known.now opened.now) op.now x.now) }
    ensures short { IfOk result IsShort }
{
    match op {
        Op::Commit => {
            let spent = is_spent(alloc, h, known, x)?;
            Ok(Added::Counter { spent })
        }
        Op::Abort => {
            let bytes = content_at(alloc, h, x.grant().file, x.work().last)?;
            Ok(Added::Content { bytes })
        }
        Op::Mend => join_for(alloc, h, known, x.grant().file),
        Op::Remove { name: _, ino } => Ok(seen_by(h, opened, x, *ino)),
        _ => Ok(Added::Nothing),
    }
}

fn join_for(alloc: Global, h: &Versions, known: &Known, file: FileId) -> Result<Added, NoMemory>
    ensures { IfOk result (λ added. added ≡ Join (are_several (kept_in (of_history h.now) (knowing known.now []) file)) (mended (of_history h.now) (knowing known.now []) file)) }
{
    let kept = kept_in(alloc, h, known, file)?;
    let bytes = mended(alloc, h, known, file)?;
    Ok(Added::Join {
        several: are_several(kept.as_slice()),
        bytes,
    })
}

/// What a removal of an inode sees: the vector of the version on which the call's own instance of it stands.
fn seen_by(h: &Versions, opened: &Instances, x: &InstanceRow, ino: u16) -> Added
    ensures { result ≡ seen_by (of_history h.now) (find (is_target x.now ino) opened.now) }
{
    let grant = x.grant();
    let file = FileId {
        group: grant.file.group,
        ino,
    };
    match opened.target(grant.call, file) {
        Some(target) => match target.work().last {
            Some(stamp) => Added::Seen {
                vector: h.vector(target.grant().file, stamp),
            },
            None => Added::Unseen,
        },
        None => Added::Unseen,
    }
}

/// The content of a version, or no bytes where there is none.
fn content_at(
    alloc: Global,
    h: &Versions,
    file: FileId,
    stamp: Option<Stamp>,
) -> Result<Bytes, NoMemory>
    ensures value { IfOk result (λ bytes. bytes ≡ stamped_content h.now file stamp) }
    ensures short { IfOk result (λ bytes. length bytes ≤ file_bytes_max) }
{
    match stamp {
        Some(stamp) => Bytes::from_slice(alloc, h.content(file, stamp)),
        None => Ok(Bytes::new(alloc)),
    }
}

/// The parents of a commit of an open instance: the last version, or for the first commit of a merge all kept versions.
pub fn parents_of(
    alloc: Global,
    h: &Versions,
    known: &Known,
    x: &InstanceRow,
) -> Result<Stamps, NoMemory>
    ensures { IfOk result (λ made. made ≡ parents_of (of_history h.now) (knowing known.now []) x.now) }
{
    if merges(x.grant().mode) && x.work().committed.is_none() {
        return kept_in(alloc, h, known, x.grant().file);
    }
    let mut made = Stamps::new(alloc);
    if let Some(last) = x.work().last {
        made.push(last)?;
    }
    Ok(made)
}

/// Whether the counter that a commit must raise has its greatest value.
pub fn is_spent(
    alloc: Global,
    h: &Versions,
    known: &Known,
    x: &InstanceRow,
) -> Result<bool, NoMemory>
    ensures { IfOk result (λ yes. yes ≡ is_spent (of_history h.now) (knowing known.now []) x.now) }
{
    let parents = parents_of(alloc, h, known, x)?;
    let grant = x.grant();
    let next = h.next_number(grant.file, parents.as_slice(), grant.ss);
    Ok(audit_tree::is_spent(next))
}

/// The pages that are free for a group at a site that holds so many of its pages.
pub fn free_pages(opened: &Instances, group: u8, site: u8, held: usize) -> u16
    ensures { result ≡ pack_pages - (held + pages_changed opened.now group site) }
{
    let left = (PACK_PAGES as usize).saturating_sub(held);
    opened.less_changed(group, site, left) as u16
}
