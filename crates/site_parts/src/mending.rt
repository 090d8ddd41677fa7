// What the mend of an instance's group works on.
ghost use Rattle.std.specs.Prelude.{◌≡◌, ℕ, List, Err, IfOk, IfErr};
ghost use Rattle.role_steps.specs.Adoption.{table_group};
ghost use Rattle.role_steps.specs.Mends.{brought_by, is_mend_in, vectors_of};
ghost use Rattle.role_steps.specs.Operations.{on_op};
ghost use Rattle.role_steps.specs.Tables.{first_that, row};
ghost use Rattle.role_steps.specs.Storage.{instance_key};
ghost use Rattle.role_steps.specs.Views.{Frame, Store as StoreView, serial_key};
ghost use Rattle.run_laws.specs.of_the_run.Steps.{group_of};
ghost use Rattle.storage_site.specs.Fitting.{CanOperateAt};
ghost use Rattle.site_parts.specs.Faults.{IsOwn};
ghost use Rattle.site_parts.specs.Fitting.{AreInodesOf, CanRest};
ghost use Rattle.site_parts.specs.Roles.{mending_by};
ghost use Rattle.site_parts.specs.declared.fault.NodeFault.TheVariants.{Unfit};

use crate::NodeFault;
use dir_reconcile::KeptVectors;
use keyed_tables::SortedTable;
use locus_ids::{Bytes, ItemList, NoMemory, Serial};
use operation_effects::MendingWork;
use site_mends::css_core::Css;
use site_mends::site_tables::kept_vectors;
use site_mends::using_site::UsingSite;
use std::alloc::Global;
use storage_site::Store;
use trace_book::Op;

/// What an operation works on that is a mend; anything for another one.
pub(crate) fn work_for(
    alloc: Global,
    store: &Store,
    tables: &SortedTable<Css>,
    users: &UsingSite,
    inst: Serial,
    op: &Op,
) -> Result<MendingWork, NodeFault>
    ensures work { IfOk result (λ work. (f : Frame) (n : ℕ) (seen : List ℕ) (s : StoreView) → s.instances ≡ store.now.instances → on_op f work inst n op.now seen s ≡ on_op f (mending_by tables.now users.now s inst) inst n op.now seen s) }
    ensures can { IfOk result (λ work. (f : Frame) (groups : List ℕ) (n : ℕ) (s : StoreView) → s.instances ≡ store.now.instances → CanOperateAt f (mending_by tables.now users.now s inst) groups inst n op.now s → CanOperateAt f work groups inst n op.now s) }
    ensures own { IfErr result IsOwn }
    ensures unfit { result ≡ Err Unfit → CanRest tables.now (group_of (row instance_key (serial_key inst) store.now.instances)) op.now → ⊥ }
{
    match op {
        Op::Mend => mending_work(alloc, store, tables, users, inst),
        _ => Ok(no_work(alloc)),
    }
}

/// What the mend of the instance's group works on.
fn mending_work(
    alloc: Global,
    store: &Store,
    tables: &SortedTable<Css>,
    users: &UsingSite,
    inst: Serial,
) -> Result<MendingWork, NodeFault>
    ensures work { IfOk result (λ work. (s : StoreView) → s.instances ≡ store.now.instances → work ≡ mending_by tables.now users.now s inst) }
    ensures own { IfErr result IsOwn }
    ensures unfit { result ≡ Err Unfit → AreInodesOf (row table_group (group_of (row instance_key (serial_key inst) store.now.instances)) tables.now) → ⊥ }
{
    let group = store.instance_group(inst).unwrap_or(0);
    Ok(MendingWork {
        contents: brought(alloc, users, group)?,
        kept: vectors_of(alloc, tables, group)?,
    })
}

/// The contents that the mend of the group has brought.
fn brought(alloc: Global, users: &UsingSite, group: u8) -> Result<ItemList<Bytes>, NoMemory>
    ensures { IfOk result (λ made. made ≡ brought_by (first_that (is_mend_in group) users.now.waiting)) }
{
    let contents = users.brought(group);
    let mut made = ItemList::new(alloc);
    for content in contents {
        made.push(content.copy()?)?;
    }
    Ok(made)
}

/// The vectors of all kept versions of the group, where the site has its table.
fn vectors_of(alloc: Global, tables: &SortedTable<Css>, group: u8) -> Result<KeptVectors, NodeFault>
    ensures kept { IfOk result (λ made. made ≡ vectors_of (row table_group group tables.now)) }
    ensures own { IfErr result IsOwn }
    ensures unfit { result ≡ Err Unfit → AreInodesOf (row table_group group tables.now) → ⊥ }
{
    let Some(table) = tables.find(u64::from(group)) else {
        return Ok(KeptVectors::new(alloc));
    };
    match kept_vectors(alloc, table)? {
        Some(vectors) => Ok(vectors),
        None => Err(NodeFault::Unfit),
    }
}

/// Nothing to mend.
fn no_work(alloc: Global) -> MendingWork {
    MendingWork {
        contents: ItemList::new(alloc),
        kept: KeptVectors::new(alloc),
    }
}
