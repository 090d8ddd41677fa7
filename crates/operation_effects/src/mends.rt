//! What a mend gives: the rescue of the join of all contents that its looks have brought.

ghost use Rattle.std.specs.Prelude.{◌≡◌, ◌<◌, ◌^◌, length, Some, IfOk, IfErr};
ghost use Rattle.dir_format.specs.Grammar.{dir_bytes};
ghost use Rattle.dir_format.specs.Contents.{entries_of};
ghost use Rattle.dir_reconcile.specs.Joins.{AgreeOnKinds, joined_dirs};
ghost use Rattle.dir_reconcile.specs.Rescues.{rescued};
ghost use Rattle.role_steps.specs.OperationEffects.{has_several, joined_contents, mend_effect};
ghost use Rattle.role_steps.specs.of_file_effects.Effects.{mends};
ghost use Rattle.operation_effects.specs.Joinable.{AreJoinable, IsMemory};
ghost use Rattle.operation_effects.specs.Settling.{IsShort, effect_by, effects_by};

use crate::EffectFault;
use crate::mending::MendingWork;
use crate::settled::Settled;
use dir_format::Dir;
use dir_operations::{dir_in, encode_dir};
use dir_reconcile::{KeptVectors, RescueFault, agree_on_kinds, join_dirs, rescue};
use locus_ids::sizes::DIRECTORY_BYTES;
use locus_ids::{Bytes, NoMemory, Refusal};
use std::alloc::Global;
use trace_book::Outcome;

/// A mend of a content.
pub(crate) fn mend(
    alloc: Global,
    work: &MendingWork,
    content: &[u8],
) -> Result<Settled, EffectFault>
    ensures value { IfOk result (λ s. effects_by content.now (Some s) ≡ mend_effect (joined_contents work.now.contents) work.now content.now) }
    ensures short { IfOk result (λ s. IsShort s.left) }
    ensures fit { AreJoinable work.now.contents → IfErr result IsMemory }
{
    let joined = joined(alloc, work.contents.as_slice())?;
    let bytes = rescued_bytes(alloc, &joined, &work.kept)?;
    let several = has_several(work.contents.as_slice());
    Ok(put_join(content, bytes, several))
}

/// The join of the directories of these contents.
fn joined(alloc: Global, contents: &[Bytes]) -> Result<Dir, EffectFault>
    ensures value { IfOk result (λ d. d ≡ joined_contents contents.now) }
    ensures fit { AreJoinable contents.now → IfErr result IsMemory }
{
    let [first, others @ ..] = contents else {
        return Ok(Dir::new(alloc));
    };
    let others = joined(alloc, others)?;
    with_content(alloc, first.as_slice(), &others)
}

/// The join of the directory of a content and another one.
fn with_content(alloc: Global, content: &[u8], others: &Dir) -> Result<Dir, EffectFault>
    ensures value { IfOk result (λ d. d ≡ joined_dirs (entries_of content.now) others.now) }
    ensures fit { length content.now < 2 ^ 32 → AgreeOnKinds (entries_of content.now) others.now → IfErr result IsMemory }
{
    if content.len() > u32::MAX as usize {
        return Err(EffectFault::Unfit);
    }
    let d = dir_in(alloc, content)?;
    if !agree_on_kinds(&d, others) {
        return Err(EffectFault::Unfit);
    }
    let joined = join_dirs(alloc, &d, others)?;
    Ok(joined)
}

/// The content of the directory after its rescues.
fn rescued_bytes(alloc: Global, joined: &Dir, kept: &KeptVectors) -> Result<Bytes, NoMemory>
    ensures { IfOk result (λ bytes. bytes ≡ dir_bytes (rescued joined.now kept.now)) }
{
    let rescued = match rescue(alloc, joined, kept) {
        Ok(rescued) => rescued,
        // No entry that is to become live has the greatest count, which a live one has.
        Err(RescueFault::Spent) => return Err(NoMemory),
        Err(RescueFault::NoMemory) => return Err(NoMemory),
    };
    let mut bytes = Bytes::new(alloc);
    encode_dir(&rescued, &mut bytes)?;
    Ok(bytes)
}

fn has_several(contents: &[Bytes]) -> bool
    ensures { result ≡ has_several contents.now }
{
    contents.len() > 1
}

/// A join in the place of a content, unless it is too long.
fn put_join(content: &[u8], joined: Bytes, several: bool) -> Settled
    ensures value { effect_by content.now result ≡ mends content.now several joined }
    ensures short { IsShort result.left }
{
    if joined.len() > DIRECTORY_BYTES {
        return Settled {
            outcome: Outcome::No {
                why: Refusal::TooLong,
            },
            left: None,
            counts: false,
            spent: false,
        };
    }
    let counts = several || joined.as_slice() != content;
    Settled {
        outcome: Outcome::Done,
        left: Some(joined),
        counts,
        spent: false,
    }
}
