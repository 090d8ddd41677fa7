ghost use Rattle.std.specs.Prelude.{◌≡◌, ◌<◌, ℕ, List, IfOk, IfErr};
ghost use Rattle.trace_book.specs.declared.operation.Op.TheVariants as Op;
ghost use Rattle.trace_book.specs.declared.operation.Outcome.TheVariants as Outcome;
ghost use Rattle.file_content.specs.Contents.{part};
ghost use Rattle.role_steps.specs.of_file_effects.Effects.{As, Removes, effect, tells};
ghost use Rattle.role_steps.specs.OperationEffects.{effect_of};
ghost use Rattle.operation_effects.specs.Joinable.{CanWorkOn, IsMemory};
ghost use Rattle.operation_effects.specs.Settling.{IsShortOf, effects_by, worked, worked_so};

use crate::directories::{empty, find, insert, probe, remove, rename};
use crate::mends::mend;
use crate::settled::Settled;
use crate::settling::{cut, settle, tell, write};
use crate::{EffectFault, MendingWork, OpenWork};
use file_content::part;
use locus_ids::sizes::SITES;
use locus_ids::{Kind, NoMemory};
use trace_book::{Op, Outcome};
use version_vector::Vector;

/// Carries an operation out on an open instance where so many pages are free: what it gives, or `None` where it isn't
/// lawful on the content, and the instance is as it was. A removal is by one who saw this vector. After a fault nothing is
/// said of the instance; `Unfit` comes only where a mend's contents can't be joined.
pub fn operate(
    work: &mut OpenWork,
    op: &Op,
    seen: &Vector<SITES>,
    mending: &MendingWork,
    free: u16,
) -> Result<Option<Outcome>, EffectFault>
    requires { work.old.ops < 4294967295 }
    ensures value { IfOk result (λ gave. worked_so gave work.new ≡ worked free work.old (effect_of op.now seen.now mending.now work.old.content)) }
    ensures fit { CanWorkOn op.now mending.now.contents → IfErr result IsMemory }
{
    match op {
        Op::Mend => on_mend(work, mending, free),
        Op::Probe { name } => Ok(on_probe(work, name.as_slice(), free)?),
        Op::Find { component } => Ok(on_find(work, component.as_slice(), free)?),
        Op::Insert { name, ino, kind } => {
            Ok(on_insert(work, name.as_slice(), *ino, *kind, free)?)
        }
        Op::Remove { name, ino } => Ok(on_remove(work, name.as_slice(), *ino, seen, free)?),
        Op::Rename { component, name } => {
            Ok(on_rename(work, component.as_slice(), name.as_slice(), free)?)
        }
        Op::Empty => Ok(on_empty(work, free)?),
        Op::Read { at, len } => Ok(read(work, *at, *len, free)?),
        Op::Write { at, bytes } => Ok(write(work, *at, bytes.as_slice(), free)?),
        Op::Cut { len } => Ok(on_cut(work, *len, free)?),
        Op::Commit => Ok(None),
        Op::Abort => Ok(None),
    }
}

/// Reads of an open instance where so many pages are free.
pub fn read(work: &mut OpenWork, at: u32, len: u16, free: u16) -> Result<Option<Outcome>, NoMemory>
    requires { work.old.ops < 4294967295 }
    ensures { IfOk result (λ gave. worked_so gave work.new ≡ worked free work.old (effect (As (Op.Read at len)) work.old.content)) }
{
    let bytes = part(work.changed.allocator(), work.content.as_slice(), at, len)?;
    let gave = tell(work, Outcome::Data { bytes }, free)?;
    Ok(Some(gave))
}

fn on_cut(work: &mut OpenWork, len: u32, free: u16) -> Result<Option<Outcome>, NoMemory>
    requires { work.old.ops < 4294967295 }
    ensures { IfOk result (λ gave. worked_so gave work.new ≡ worked free work.old (effect (As (Op.Cut len)) work.old.content)) }
{
    let gave = cut(work, len, free)?;
    Ok(Some(gave))
}

fn on_mend(
    work: &mut OpenWork,
    mending: &MendingWork,
    free: u16,
) -> Result<Option<Outcome>, EffectFault>
    requires { work.old.ops < 4294967295 }
    ensures value { (seen : List ℕ) → IfOk result (λ gave. worked_so gave work.new ≡ worked free work.old (effect_of Op.Mend seen mending.now work.old.content)) }
    ensures fit { CanWorkOn Op.Mend mending.now.contents → IfErr result IsMemory }
{
    let settled = mend(work.changed.allocator(), mending, work.content.as_slice())?;
    let gave = settle(work, settled, free)?;
    Ok(Some(gave))
}

fn on_probe(work: &mut OpenWork, name: &[u8], free: u16) -> Result<Option<Outcome>, NoMemory>
    requires { work.old.ops < 4294967295 }
    ensures { IfOk result (λ gave. worked_so gave work.new ≡ worked free work.old (effect (As (Op.Probe name.now)) work.old.content)) }
{
    let settled = probe(work.changed.allocator(), work.content.as_slice(), name)?;
    settle_some(work, settled, free)
}

fn on_find(work: &mut OpenWork, component: &[u8], free: u16) -> Result<Option<Outcome>, NoMemory>
    requires { work.old.ops < 4294967295 }
    ensures { IfOk result (λ gave. worked_so gave work.new ≡ worked free work.old (effect (As (Op.Find component.now)) work.old.content)) }
{
    let settled = find(work.changed.allocator(), work.content.as_slice(), component)?;
    settle_some(work, settled, free)
}

fn on_insert(
    work: &mut OpenWork,
    name: &[u8],
    ino: u16,
    kind: Kind,
    free: u16,
) -> Result<Option<Outcome>, NoMemory>
    requires { work.old.ops < 4294967295 }
    ensures { IfOk result (λ gave. worked_so gave work.new ≡ worked free work.old (effect (As (Op.Insert name.now ino kind)) work.old.content)) }
{
    let settled = insert(
        work.changed.allocator(),
        work.content.as_slice(),
        name,
        ino,
        kind,
    )?;
    settle_some(work, settled, free)
}

fn on_remove(
    work: &mut OpenWork,
    name: &[u8],
    ino: u16,
    seen: &Vector<SITES>,
    free: u16,
) -> Result<Option<Outcome>, NoMemory>
    requires { work.old.ops < 4294967295 }
    ensures { IfOk result (λ gave. worked_so gave work.new ≡ worked free work.old (effect (Removes name.now ino seen.now) work.old.content)) }
{
    let settled = remove(
        work.changed.allocator(),
        work.content.as_slice(),
        name,
        ino,
        seen,
    )?;
    settle_some(work, settled, free)
}

fn on_rename(
    work: &mut OpenWork,
    component: &[u8],
    name: &[u8],
    free: u16,
) -> Result<Option<Outcome>, NoMemory>
    requires { work.old.ops < 4294967295 }
    ensures { IfOk result (λ gave. worked_so gave work.new ≡ worked free work.old (effect (As (Op.Rename component.now name.now)) work.old.content)) }
{
    let settled = rename(
        work.changed.allocator(),
        work.content.as_slice(),
        component,
        name,
    )?;
    settle_some(work, settled, free)
}

fn on_empty(work: &mut OpenWork, free: u16) -> Result<Option<Outcome>, NoMemory>
    requires { work.old.ops < 4294967295 }
    ensures { IfOk result (λ gave. worked_so gave work.new ≡ worked free work.old (effect (As Op.Empty) work.old.content)) }
{
    let settled = empty(work.changed.allocator(), work.content.as_slice())?;
    settle_some(work, settled, free)
}

/// The instance after an operation that is lawful on the content or isn't.
fn settle_some(
    work: &mut OpenWork,
    settled: Option<Settled>,
    free: u16,
) -> Result<Option<Outcome>, NoMemory>
    requires few { work.old.ops < 4294967295 }
    requires short { IsShortOf settled }
    ensures { IfOk result (λ gave. worked_so gave work.new ≡ worked free work.old (effects_by work.old.content settled)) }
{
    match settled {
        None => Ok(None),
        Some(settled) => {
            let gave = settle(work, settled, free)?;
            Ok(Some(gave))
        }
    }
}
