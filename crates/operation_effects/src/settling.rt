//! What becomes of an open instance by what an operation gives.

ghost use Rattle.std.specs.Prelude.{◌≡◌, ◌+◌, ◌<◌, ◌≤◌, nat_le, length, [], Some, IfOk};
ghost use Rattle.locus_ids.specs.Sizes.{file_bytes_max};
ghost use Rattle.role_steps.specs.of_file_effects.Effects.{As, cuts, effect, tells};
ghost use Rattle.trace_book.specs.declared.operation.Op.TheVariants as Op;
ghost use Rattle.operation_effects.specs.Settling.{IsShort, effect_by, worked, worked_so};

use crate::OpenWork;
use crate::judging::{is_refusal, judged};
use crate::settled::Settled;
use file_content::{pages_replaced, pages_written};
use locus_ids::NoMemory;
use locus_ids::sizes::FILE_BYTES;
use trace_book::Outcome;

/// An operation that gives this and leaves the content as it is.
#[tactic(auto, using(crate::proofs::Judged::refused_so, crate::proofs::Judged::done_so))]
pub(crate) fn tell(work: &mut OpenWork, outcome: Outcome, free: u16) -> Result<Outcome, NoMemory>
    requires { work.old.ops < 4294967295 }
    ensures { IfOk result (λ gave. worked_so (Some gave) work.new ≡ worked free work.old (Some (tells work.old.content outcome))) }
{
    let gave = judged(free, work.changed.as_slice(), outcome, &[], false);
    if is_refusal(&gave) {
        work.count();
        return Ok(gave);
    }
    work.carry(&[], false)?;
    Ok(gave)
}

/// A cut to this length.
#[tactic(auto, using(crate::proofs::Judged::refused_so, crate::proofs::Judged::done_so))]
pub(crate) fn cut(work: &mut OpenWork, len: u32, free: u16) -> Result<Outcome, NoMemory>
    requires { work.old.ops < 4294967295 }
    ensures { IfOk result (λ gave. worked_so (Some gave) work.new ≡ worked free work.old (Some (cuts work.old.content len))) }
{
    let gave = judged(free, work.changed.as_slice(), Outcome::Done, &[], false);
    if is_refusal(&gave) {
        work.count();
        return Ok(gave);
    }
    let counts = (len as usize) < work.content.len();
    work.content.cut(len);
    work.carry(&[], counts)?;
    Ok(gave)
}

/// A write of these bytes from a place on, which is none past the greatest size.
#[tactic(auto, using(crate::proofs::Judged::refused_so, crate::proofs::Judged::done_so, crate::proofs::Judged::few_written, crate::proofs::Judged::fits_so))]
pub(crate) fn write(
    work: &mut OpenWork,
    at: u32,
    bytes: &[u8],
    free: u16,
) -> Result<Option<Outcome>, NoMemory>
    requires { work.old.ops < 4294967295 }
    ensures { IfOk result (λ gave. worked_so gave work.new ≡ worked free work.old (effect (As (Op.Write at bytes.now)) work.old.content)) }
{
    if !fits(at, bytes) {
        return Ok(None);
    }
    let alloc = work.changed.allocator();
    let pages = pages_written(alloc, work.content.as_slice(), at, bytes)?;
    let gave = judged(
        free,
        work.changed.as_slice(),
        Outcome::Done,
        pages.as_slice(),
        false,
    );
    if is_refusal(&gave) {
        work.count();
        return Ok(Some(gave));
    }
    work.content.write(at, bytes)?;
    work.carry(pages.as_slice(), true)?;
    Ok(Some(gave))
}

/// These bytes from a place on end within the greatest size of a content.
fn fits(at: u32, bytes: &[u8]) -> bool
    ensures { result ≡ nat_le (at + length bytes.now) file_bytes_max }
{
    let at = at as usize;
    bytes.len() <= FILE_BYTES && at <= FILE_BYTES - bytes.len()
}

/// An operation that puts a whole content in the place of the old one, or keeps it.
pub(crate) fn settle(work: &mut OpenWork, settled: Settled, free: u16) -> Result<Outcome, NoMemory>
    requires few { work.old.ops < 4294967295 }
    requires short { IsShort settled.left }
    ensures { IfOk result (λ gave. worked_so (Some gave) work.new ≡ worked free work.old (Some (effect_by work.old.content settled))) }
{
    let (outcome, counts, spent) = (settled.outcome, settled.counts, settled.spent);
    match settled.left {
        None => keep(work, outcome, counts, spent, free),
        Some(new) => put(work, new.as_slice(), outcome, counts, spent, free),
    }
}

#[tactic(auto, using(crate::proofs::Judged::refused_so, crate::proofs::Judged::done_so))]
fn keep(
    work: &mut OpenWork,
    outcome: Outcome,
    counts: bool,
    spent: bool,
    free: u16,
) -> Result<Outcome, NoMemory>
    requires { work.old.ops < 4294967295 }
    ensures { IfOk result (λ gave. worked_so (Some gave) work.new ≡ worked free work.old (Some (record { result = outcome; content = work.old.content; pages = []; counts = counts; spent = spent }))) }
{
    let gave = judged(free, work.changed.as_slice(), outcome, &[], spent);
    if is_refusal(&gave) {
        work.count();
        return Ok(gave);
    }
    work.carry(&[], counts)?;
    Ok(gave)
}

#[tactic(auto, using(crate::proofs::Judged::refused_so, crate::proofs::Judged::done_so, crate::proofs::Judged::few_replaced))]
fn put(
    work: &mut OpenWork,
    new: &[u8],
    outcome: Outcome,
    counts: bool,
    spent: bool,
    free: u16,
) -> Result<Outcome, NoMemory>
    requires few { work.old.ops < 4294967295 }
    requires short { length new.now ≤ file_bytes_max }
    ensures { IfOk result (λ gave. worked_so (Some gave) work.new ≡ worked free work.old (Some (effect_by work.old.content (record { outcome = outcome; left = Some new.now; counts = counts; spent = spent })))) }
{
    let alloc = work.changed.allocator();
    let pages = pages_replaced(alloc, work.content.as_slice(), new)?;
    let gave = judged(
        free,
        work.changed.as_slice(),
        outcome,
        pages.as_slice(),
        spent,
    );
    if is_refusal(&gave) {
        work.count();
        return Ok(gave);
    }
    work.content.replace(new)?;
    work.carry(pages.as_slice(), counts)?;
    Ok(gave)
}
