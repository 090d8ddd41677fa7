//! Operations on an open instance, in place: what each gives, or `None` where it isn't lawful, and the instance is as it was.
//! After `NoMemory` nothing is said of the instance.

ghost use Rattle.std.specs.Prelude.{◌≡◌, ◌<◌, ◌≤◌, ℕ, List, length, Some, IfOk, OnOk};
ghost use Rattle.locus_ids.specs.Sizes.{directory_bytes_max};
ghost use Rattle.trace_book.specs.declared.operation.Op.TheVariants as Op;
ghost use Rattle.file_content.specs.Pages.{pages_needed};
ghost use Rattle.file_effects.specs.Effects.{As, Mends, Removes, effect};
ghost use Rattle.file_effects.specs.Works.{carried_out, commit_result};
ghost use Rattle.role_steps.specs.OperationEffects.{effect_of};
ghost use Rattle.operation_effects.specs.Settling.{worked, worked_so};
ghost use Rattle.audit_tree.specs.Acting.{IsPlain, committed_so, nothing_mended, put_effect};

use dir_reconcile::KeptVectors;
use file_content::{pages_replaced, pages_within, with_pages};
use locus_ids::sizes::{DIRECTORY_BYTES, SITES};
use locus_ids::{ItemList, NoMemory, Refusal};
use operation_effects::{EffectFault, MendingWork, OpenWork};
use trace_book::{Op, Outcome};
use version_vector::Vector;

/// An operation whose words say all, where so many pages are free.
pub fn operate(work: &mut OpenWork, op: &Op, free: u16) -> Result<Option<Outcome>, NoMemory>
    requires few { work.old.ops < 4294967295 }
    requires plain { IsPlain op.now }
    ensures { IfOk result (λ gave. worked_so gave work.new ≡ worked free work.old (effect (As op.now) work.old.content)) }
{
    carry_out(work, op, &Vector::zero(), free)
}

/// A removal by one who saw this vector.
pub fn remove(
    work: &mut OpenWork,
    op: &Op,
    seen: &Vector<SITES>,
    free: u16,
) -> Result<Option<Outcome>, NoMemory>
    requires { work.old.ops < 4294967295 }
    ensures { (name : List ℕ) (ino : ℕ) → op.now ≡ Op.Remove name ino → IfOk result (λ gave. worked_so gave work.new ≡ worked free work.old (effect (Removes name ino seen.now) work.old.content)) }
{
    carry_out(work, op, seen, free)
}

/// The operation on the content alone: a mend isn't one.
fn carry_out(
    work: &mut OpenWork,
    op: &Op,
    seen: &Vector<SITES>,
    free: u16,
) -> Result<Option<Outcome>, NoMemory>
    requires { work.old.ops < 4294967295 }
    ensures { ¬ (op.now ≡ Op.Mend) → IfOk result (λ gave. worked_so gave work.new ≡ worked free work.old (effect_of op.now seen.now nothing_mended work.old.content)) }
{
    let nothing = MendingWork {
        contents: ItemList::new(work.changed.allocator()),
        kept: KeptVectors::new(work.changed.allocator()),
    };
    match operation_effects::operate(work, op, seen, &nothing, free) {
        Ok(gave) => Ok(gave),
        // Only a mend's contents can be unfit, and there are none here.
        Err(EffectFault::Unfit) => Err(NoMemory),
        Err(EffectFault::NoMemory) => Err(NoMemory),
    }
}

/// A mend that puts this join in the place of the content. It counts as a change where several versions are kept.
#[tactic(auto, using(crate::proofs::Put::too_long_so, crate::proofs::Put::no_room_so, crate::proofs::Put::put_so, crate::proofs::Put::few_pages))]
pub fn mend(
    work: &mut OpenWork,
    several: bool,
    joined: &[u8],
    free: u16,
) -> Result<Outcome, NoMemory>
    requires { work.old.ops < 4294967295 }
    ensures { IfOk result (λ gave. worked_so (Some gave) work.new ≡ worked free work.old (effect (Mends several joined.now) work.old.content)) }
{
    if joined.len() > DIRECTORY_BYTES {
        work.count();
        return Ok(Outcome::No {
            why: Refusal::TooLong,
        });
    }
    let alloc = work.changed.allocator();
    let pages = pages_replaced(alloc, work.content.as_slice(), joined)?;
    let needed = few_needed(pages.as_slice(), work.changed.as_slice());
    if needed > free {
        work.count();
        let why = Refusal::NoSpace { needed, free };
        return Ok(Outcome::No { why });
    }
    let counts = several || joined != work.content.as_slice();
    put(work, joined, pages.as_slice(), counts)?;
    Ok(Outcome::Done)
}

/// How many of a few pages weren't changed before.
fn few_needed(pages: &[usize], changed: &[usize]) -> u16
    requires { length pages.now ≤ 65535 }
    ensures { result ≡ pages_needed pages.now changed.now }
{
    let mut needed = 0;
    for page in pages {
        if !changed.contains(page) {
            needed += 1;
        }
    }
    needed
}

/// One operation more is done, which put this content in the place of the old one, and changed these pages of it.
fn put(work: &mut OpenWork, new: &[u8], pages: &[usize], counts: bool) -> Result<(), NoMemory>
    requires few { work.old.ops < 4294967295 }
    requires short { length new.now ≤ directory_bytes_max }
    ensures { OnOk result (work.new ≡ carried_out (put_effect new.now pages.now counts) work.old) }
{
    let alloc = work.changed.allocator();
    let within = pages_within(alloc, new.len(), work.changed.as_slice())?;
    work.changed = with_pages(alloc, pages, within.as_slice())?;
    work.content.replace(new)?;
    work.ops += 1;
    work.fresh = false;
    work.owes = work.owes || counts;
    Ok(())
}

/// A commit gives the last version once none is owed, and a refusal where the counter can't rise.
pub fn commit(work: &mut OpenWork, spent: bool) -> Option<Outcome>
    requires { work.old.ops < 4294967295 }
    ensures { worked_so result work.new ≡ committed_so (commit_result spent work.old) work.old }
{
    let gave = commit_result(work, spent);
    if gave.is_some() {
        work.count();
    }
    gave
}

fn commit_result(work: &OpenWork, spent: bool) -> Option<Outcome>
    ensures { result ≡ commit_result spent work.now }
{
    if work.owes {
        if spent {
            return Some(Outcome::No {
                why: Refusal::Spent,
            });
        }
        return None;
    }
    match work.last {
        Some(stamp) => Some(Outcome::Committed { stamp }),
        None => None,
    }
}
