ghost use Rattle.std.specs.Prelude.{◌≡◌, ◌<◌, ◌+◌, ◌==◌, ◌⊎◌, length, cond, true, false, IfOk, OnErr};
ghost use Rattle.trace_book.specs.declared.operation.Op.TheVariants as Op;
ghost use Rattle.tree_model.specs.Given.{gives_act};
ghost use Rattle.tree_model.specs.State.{instance_in};
ghost use Rattle.tree_model.specs.Tree.{acted};
ghost use Rattle.tree_model.specs.Working.{free_pages};
ghost use Rattle.file_effects.specs.Works.{commit_result};
ghost use Rattle.role_steps.specs.OperationEffects.{effect_of};
ghost use Rattle.tree_model.specs.Same.{is_given};
ghost use Rattle.operation_effects.specs.Joinable.{CanWorkOn};
ghost use Rattle.tree_acts.specs.Acting.{IsPlain, acted_work, given_work, needs_room, work_by};
ghost use Rattle.tree_acts.specs.Unfit.{IsTooLong, IsUnfit, IsUnfitAct};

use crate::ActFault;
use crate::mending::mending;
use crate::operating::work_by;
use crate::working::{abort, count};
use commit_graph::History;
use dir_reconcile::KeptVectors;
use file_effects::Work;
use locus_ids::sizes::SITES;
use locus_ids::{ItemList, NoMemory, Serial};
use operation_effects::MendingWork;
use std::alloc::Global;
use trace_book::{Op, Outcome};
use tree_model::Instance;
use tree_steps::{TreeTables, content_at};
use tree_tables::same_outcome;
use version_vector::Vector;
use written_vectors::vector_of;

/// Whether the tree gives this act: where it does, the act is carried out, and where it doesn't, the tree stays. After a
/// fault the tree is as it was. `NoMemory` comes for want of memory alone.
///
/// `Unfit` comes only where an operation but a commit or an abort works on a content of more than 65,536 bytes, and where the
/// kept versions of a directory to be mended can't be joined: an inode is a file in one of them and a directory in another,
/// or one is longer than 4,294,967,295 bytes.
pub fn act(
    tree: &mut TreeTables,
    h: &History,
    inst: Serial,
    n: u32,
    op: &Op,
    outcome: &Outcome,
) -> Result<bool, ActFault>
    requires { length h.now < 4294967295 }
    ensures given { IfOk result (λ yes. yes ≡ gives_act h.now tree.old inst n op.now outcome.now) }
    ensures next { IfOk result (λ yes. tree.new ≡ cond yes (acted h.now inst op.now outcome.now tree.old) tree.old) }
    ensures err { OnErr result (tree.new ≡ tree.old) }
    ensures unfit { result ≡ Err ActFault.Unfit → IsUnfitAct h.now tree.old op.now (instance_in tree.old inst) }
{
    match acted_work(tree, h, inst, n, op, outcome)? {
        Some(work) => {
            tree.act(inst, op, outcome, work)?;
            Ok(true)
        }
        None => Ok(false),
    }
}

/// What becomes of the instance, or `None` where the tree doesn't give the act.
fn acted_work(
    tree: &TreeTables,
    h: &History,
    inst: Serial,
    n: u32,
    op: &Op,
    outcome: &Outcome,
) -> Result<Option<Work>, ActFault>
    requires { length h.now < 4294967295 }
    ensures value { IfOk result (λ made. made ≡ acted_work h.now tree.now n op.now outcome.now (instance_in tree.now inst)) }
    ensures unfit { result ≡ Err ActFault.Unfit → IsUnfitAct h.now tree.now op.now (instance_in tree.now inst) }
{
    let Some(instance) = tree.instance(inst) else {
        return Ok(None);
    };
    if !is_next(n, instance.work.ops) {
        return Ok(None);
    }
    given_work(tree, h, op, outcome, instance)
}

/// The number is the one after that of the operations done.
fn is_next(n: u32, ops: u32) -> bool
    ensures value { result ≡ (n == ops + 1) }
    ensures few { result ≡ true → ops < 4294967295 }
{
    ops < n && n - ops == 1
}

/// What becomes of an open instance, or `None` where the operation gives something else.
fn given_work(
    tree: &TreeTables,
    h: &History,
    op: &Op,
    outcome: &Outcome,
    instance: &Instance,
) -> Result<Option<Work>, ActFault>
    requires short { length h.now < 4294967295 }
    requires few { instance.now.work.ops < 4294967295 }
    ensures value { IfOk result (λ made. made ≡ given_work h.now tree.now op.now outcome.now instance.now) }
    ensures unfit { result ≡ Err ActFault.Unfit → IsUnfit h.now tree.now op.now instance.now }
{
    match op {
        Op::Commit => Ok(committed_work(tree, h, outcome, instance)?),
        Op::Abort => Ok(aborted_work(tree, h, outcome, instance)?),
        Op::Mend => mending_work(tree, h, op, outcome, instance),
        Op::Remove { name, ino } => {
            removing_work(tree, h, name.as_slice(), *ino, op, outcome, instance)
        }
        _ => plain_work(tree, h, op, outcome, instance),
    }
}

/// A commit gives the last version once none is owed. One that is owed can be made, and comes first: no counter is greater
/// than the history is long.
fn committed_work(
    tree: &TreeTables,
    h: &History,
    outcome: &Outcome,
    instance: &Instance,
) -> Result<Option<Work>, NoMemory>
    requires short { length h.now < 4294967295 }
    requires few { instance.now.work.ops < 4294967295 }
    ensures { IfOk result (λ made. made ≡ given_work h.now tree.now Op.Commit outcome.now instance.now) }
{
    if !is_committed(&instance.work, outcome) {
        return Ok(None);
    }
    let mut work = copy_of(&instance.work)?;
    count(&mut work);
    Ok(Some(work))
}

/// A commit tells this: the last version, where none is owed.
fn is_committed(work: &Work, outcome: &Outcome) -> bool
    ensures { result ≡ is_given (commit_result false work.now) outcome.now }
{
    if work.owes {
        return false;
    }
    match work.last {
        Some(stamp) => same_outcome(&Outcome::Committed { stamp }, outcome),
        None => false,
    }
}

fn copy_of(work: &Work) -> Result<Work, NoMemory>
    ensures { IfOk result (λ made. made ≡ work.now) }
{
    let content = work.content.copy()?;
    let changed = work.changed.copy()?;
    Ok(Work {
        ops: work.ops,
        content,
        owes: work.owes,
        last: work.last,
        committed: work.committed,
        fresh: work.fresh,
        changed,
    })
}

/// An abort gives the content of the last version back.
fn aborted_work(
    tree: &TreeTables,
    h: &History,
    outcome: &Outcome,
    instance: &Instance,
) -> Result<Option<Work>, NoMemory>
    requires { instance.now.work.ops < 4294967295 }
    ensures { IfOk result (λ made. made ≡ given_work h.now tree.now Op.Abort outcome.now instance.now) }
{
    if !same_outcome(&Outcome::Done, outcome) {
        return Ok(None);
    }
    let grant = instance.grant;
    let content = content_at(tree.allocator(), h, grant.file, instance.work.last)?;
    let mut work = copy_of(&instance.work)?;
    abort(&mut work, grant.mode, content);
    Ok(Some(work))
}

/// A removal is by one who saw the version on which the call's instance of the removed inode stands.
fn removing_work(
    tree: &TreeTables,
    h: &History,
    name: &[u8],
    ino: u16,
    op: &Op,
    outcome: &Outcome,
    instance: &Instance,
) -> Result<Option<Work>, ActFault>
    requires short { length h.now < 4294967295 }
    requires few { instance.now.work.ops < 4294967295 }
    ensures value { op.now ≡ Op.Remove name.now ino → IfOk result (λ made. made ≡ given_work h.now tree.now op.now outcome.now instance.now) }
    ensures unfit { op.now ≡ Op.Remove name.now ino → result ≡ Err ActFault.Unfit → IsUnfit h.now tree.now op.now instance.now }
{
    let Some(target) = tree.target(instance.grant.call, ino) else {
        return Ok(None);
    };
    let Some(stamp) = target.work.last else {
        return Ok(None);
    };
    let alloc = tree.allocator();
    let seen = vector_of(alloc, h, target.grant.file, stamp)?;
    operated_work(tree, h, op, &seen, &no_mending(alloc), outcome, instance)
}

/// A mend puts the join of the kept versions in place.
fn mending_work(
    tree: &TreeTables,
    h: &History,
    op: &Op,
    outcome: &Outcome,
    instance: &Instance,
) -> Result<Option<Work>, ActFault>
    requires short { length h.now < 4294967295 }
    requires few { instance.now.work.ops < 4294967295 }
    ensures value { op.now ≡ Op.Mend → IfOk result (λ made. made ≡ given_work h.now tree.now Op.Mend outcome.now instance.now) }
    ensures unfit { op.now ≡ Op.Mend → result ≡ Err ActFault.Unfit → IsUnfit h.now tree.now op.now instance.now }
{
    let mending = mending(tree, h, instance.grant.file)?;
    operated_work(tree, h, op, &Vector::zero(), &mending, outcome, instance)
}

/// An operation whose words say all.
fn plain_work(
    tree: &TreeTables,
    h: &History,
    op: &Op,
    outcome: &Outcome,
    instance: &Instance,
) -> Result<Option<Work>, ActFault>
    requires { instance.now.work.ops < 4294967295 }
    ensures value { IsPlain op.now → IfOk result (λ made. made ≡ given_work h.now tree.now op.now outcome.now instance.now) }
    ensures unfit { IsPlain op.now → result ≡ Err ActFault.Unfit → IsUnfit h.now tree.now op.now instance.now }
{
    let mending = no_mending(tree.allocator());
    operated_work(tree, h, op, &Vector::zero(), &mending, outcome, instance)
}

fn no_mending(alloc: Global) -> MendingWork {
    MendingWork {
        contents: ItemList::new(alloc),
        kept: KeptVectors::new(alloc),
    }
}

#[tactic(auto, using(crate::proofs::Roomless::roomless_so))]
/// What becomes of an open instance by an operation that is carried out in the room that its storage site has.
fn operated_work(
    tree: &TreeTables,
    h: &History,
    op: &Op,
    seen: &Vector<SITES>,
    mending: &MendingWork,
    outcome: &Outcome,
    instance: &Instance,
) -> Result<Option<Work>, ActFault>
    requires { instance.now.work.ops < 4294967295 }
    ensures value { IfOk result (λ made. made ≡ work_by (free_pages h.now tree.now instance.now.grant.ss) outcome.now instance.now.work (effect_of op.now seen.now mending.now instance.now.work.content)) }
    ensures unfit { result ≡ Err ActFault.Unfit → IsTooLong instance.now.work ⊎ ¬ CanWorkOn op.now mending.now.contents }
{
    let free = room_for(tree, h, op, instance.grant.ss);
    work_by(&instance.work, op, seen, mending, free, outcome)
}

/// The pages that are free at a site, which aren't counted for an operation that needs none.
fn room_for(tree: &TreeTables, h: &History, op: &Op, site: u8) -> u16
    ensures { result ≡ cond (needs_room op.now) (free_pages h.now tree.now site) 0 }
{
    if needs_room(op) {
        free_pages(tree, h, site)
    } else {
        0
    }
}

fn needs_room(op: &Op) -> bool
    ensures { result ≡ needs_room op.now }
{
    match op {
        Op::Read { at: _, len: _ } => false,
        Op::Cut { len: _ } => false,
        _ => true,
    }
}

fn free_pages(tree: &TreeTables, h: &History, site: u8) -> u16
    ensures { result ≡ free_pages h.now tree.now site }
{
    tree.free_pages(h, site) as u16
}
