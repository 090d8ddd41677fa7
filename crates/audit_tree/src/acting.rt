ghost use Rattle.std.specs.Prelude.{◌≡◌, ◌<◌, ℕ, List, IfOk};
ghost use Rattle.trace_book.specs.declared.operation.Op.TheVariants as Op;
ghost use Rattle.operation_effects.specs.Settling.{worked_so};
ghost use Rattle.audit_tree.specs.Adding.{IsShort, aborts_with, acted_with, commits_with, mends_with, removes_with};

use crate::operating::{commit, mend, operate, remove};
use locus_ids::sizes::SITES;
use locus_ids::{Bytes, Mode, NoMemory};
use operation_effects::OpenWork;
use trace_book::{Op, Outcome};
use version_vector::Vector;

/// What the tree adds to the words of an operation.
#[derive(Drop)]
pub enum Added {
    /// The words say all.
    Nothing,
    /// A removal of what the call has no version of.
    Unseen,
    /// The vector of the version that a removal saw.
    Seen { vector: Vector<SITES> },
    /// What a mend puts in the place of the content, and whether several versions are kept.
    Join { several: bool, bytes: Bytes },
    /// Whether the counter that a commit must raise has its greatest value.
    Counter { spent: bool },
    /// The content that an abort goes back to.
    Content { bytes: Bytes },
}

/// Carries an operation out on an open instance of this mode, with what the tree adds to it, where so many pages are free:
/// what it gives, or `None` where it isn't lawful, and the instance is as it was. After `NoMemory` nothing is said of it.
pub fn act(
    work: &mut OpenWork,
    mode: Mode,
    op: &Op,
    added: &Added,
    free: u16,
) -> Result<Option<Outcome>, NoMemory>
    requires few { work.old.ops < 4294967295 }
    requires short { IsShort added.now }
    ensures { IfOk result (λ gave. worked_so gave work.new ≡ acted_with added.now op.now free mode work.old) }
{
    match op {
        Op::Commit => Ok(committed(work, added)),
        Op::Abort => aborted(work, mode, added),
        Op::Mend => mended(work, added, free),
        Op::Remove { name: _, ino: _ } => removed(work, op, added, free),
        _ => operate(work, op, free),
    }
}

fn committed(work: &mut OpenWork, added: &Added) -> Option<Outcome>
    requires { work.old.ops < 4294967295 }
    ensures { worked_so result work.new ≡ commits_with added.now work.old }
{
    match added {
        Added::Counter { spent } => commit(work, *spent),
        _ => None,
    }
}

fn aborted(work: &mut OpenWork, mode: Mode, added: &Added) -> Result<Option<Outcome>, NoMemory>
    requires few { work.old.ops < 4294967295 }
    requires short { IsShort added.now }
    ensures { IfOk result (λ gave. worked_so gave work.new ≡ aborts_with added.now mode work.old) }
{
    match added {
        Added::Content { bytes } => {
            work.abort(mode, bytes.as_slice())?;
            Ok(Some(Outcome::Done))
        }
        _ => Ok(None),
    }
}

fn mended(work: &mut OpenWork, added: &Added, free: u16) -> Result<Option<Outcome>, NoMemory>
    requires { work.old.ops < 4294967295 }
    ensures { IfOk result (λ gave. worked_so gave work.new ≡ mends_with added.now free work.old) }
{
    match added {
        Added::Join { several, bytes } => {
            let gave = mend(work, *several, bytes.as_slice(), free)?;
            Ok(Some(gave))
        }
        _ => Ok(None),
    }
}

fn removed(
    work: &mut OpenWork,
    op: &Op,
    added: &Added,
    free: u16,
) -> Result<Option<Outcome>, NoMemory>
    requires { work.old.ops < 4294967295 }
    ensures { (name : List ℕ) (ino : ℕ) → op.now ≡ Op.Remove name ino → IfOk result (λ gave. worked_so gave work.new ≡ removes_with added.now name ino free work.old) }
{
    match added {
        Added::Seen { vector } => remove(work, op, vector, free),
        _ => Ok(None),
    }
}
