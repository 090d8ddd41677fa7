ghost use Rattle.std.specs.Prelude.{◌≡◌, ◌≤◌, ◌<◌, ◌⊎◌, length, IfOk};
ghost use Rattle.file_effects.specs.declared.work.Work.{Work};
ghost use Rattle.role_steps.specs.OperationEffects.{effect_of};
ghost use Rattle.operation_effects.specs.Joinable.{CanWorkOn};
ghost use Rattle.tree_acts.specs.Acting.{work_by};
ghost use Rattle.tree_acts.specs.Unfit.{IsTooLong};

use crate::ActFault;
use file_effects::Work;
use locus_ids::sizes::{FILE_BYTES, SITES};
use locus_ids::{Bytes, ItemList, NoMemory};
use operation_effects::{MendingWork, OpenWork, WorkingContent, operate};
use trace_book::{Op, Outcome};
use tree_tables::same_outcome;
use version_vector::Vector;

/// What becomes of an instance by an operation that gives this outcome where so many pages are free, or `None` where it
/// gives another one, or isn't lawful. A removal is by one who saw this vector.
#[tactic(auto, using(crate::proofs::Operated::unlawful_so, crate::proofs::Operated::other_so, crate::proofs::Operated::given_so, crate::proofs::Unfitting::refused_so))]
pub(crate) fn work_by(
    work: &Work,
    op: &Op,
    seen: &Vector<SITES>,
    mending: &MendingWork,
    free: u16,
    outcome: &Outcome,
) -> Result<Option<Work>, ActFault>
    requires { work.now.ops < 4294967295 }
    ensures value { IfOk result (λ made. made ≡ work_by free outcome.now work.now (effect_of op.now seen.now mending.now work.now.content)) }
    ensures unfit { result ≡ Err ActFault.Unfit → IsTooLong work.now ⊎ ¬ CanWorkOn op.now mending.now.contents }
{
    let mut open = opened(work)?;
    let gave = operate(&mut open, op, seen, mending, free)?;
    let Some(gave) = gave else {
        return Ok(None);
    };
    if !same_outcome(&gave, outcome) {
        return Ok(None);
    }
    let work = closed(open)?;
    Ok(Some(work))
}

/// The same work, to be operated on in place. A content that is longer than that of a file may be is past what it takes.
fn opened(work: &Work) -> Result<OpenWork, ActFault>
    ensures value { IfOk result (λ made. made ≡ work.now) }
    ensures unfit { result ≡ Err ActFault.Unfit → IsTooLong work.now }
{
    let alloc = work.changed.allocator();
    if work.content.len() > FILE_BYTES {
        return Err(ActFault::Unfit);
    }
    let content = WorkingContent::from_slice(alloc, work.content.as_slice())?;
    let changed = work.changed.copy()?;
    Ok(OpenWork {
        ops: work.ops,
        content,
        owes: work.owes,
        last: work.last,
        committed: work.committed,
        fresh: work.fresh,
        changed,
    })
}

/// The same work, in the tree.
fn closed(worked: OpenWork) -> Result<Work, NoMemory>
    ensures { IfOk result (λ made. made ≡ worked) }
{
    let content = Bytes::from_slice(worked.changed.allocator(), worked.content.as_slice())?;
    Ok(Work {
        ops: worked.ops,
        content,
        owes: worked.owes,
        last: worked.last,
        committed: worked.committed,
        fresh: worked.fresh,
        changed: worked.changed,
    })
}
