//! What each operation on a directory gives that only asks.

ghost use Rattle.std.specs.Prelude.{◌≡◌, true, IfOk};
ghost use Rattle.trace_book.specs.Names.{is_name};
ghost use Rattle.dir_format.specs.Effects.{empty_effect, find_effect, probe_effect};
ghost use Rattle.dir_operations.specs.Answers.{effect_of};

use crate::answer::{answered, refused};
use crate::finding::{first_live, first_of_name};
use crate::showing::{is_shared, shown_name};
use crate::size::is_too_long;
use crate::{DirAnswer, lookup};
use dir_format::{Dir, LookResult};
use locus_ids::{Bytes, NoMemory, Refusal};
use trace_book::Outcome;

/// Asks that a name has no live entry, and that an entry for it fits.
pub fn probe(d: &Dir, name: &[u8]) -> DirAnswer
    requires { is_name name.now ≡ true }
    ensures { effect_of result d.now ≡ probe_effect name.now d.now }
{
    let entries = d.as_slice();
    if let Some(entry) = first_of_name(entries, name) {
        return refused(Refusal::Exists {
            ino: entry.ino.get(),
        });
    }
    if is_too_long(entries, name.len() + 8) {
        return refused(Refusal::TooLong);
    }
    answered(Outcome::Done)
}

/// Asks for the only live entry that a component means.
pub fn find(d: &Dir, component: &[u8]) -> Result<DirAnswer, NoMemory>
    ensures { IfOk result (λ a. effect_of a d.now ≡ find_effect component.now d.now) }
{
    match lookup(d, component) {
        LookResult::Found { ino, kind } => Ok(answered(Outcome::Found {
            ino: ino.get(),
            kind,
        })),
        LookResult::Absent => {
            let name = Bytes::from_slice(d.allocator(), component)?;
            Ok(refused(Refusal::Absent { name }))
        }
        LookResult::Ambiguous { a, b } => Ok(refused(Refusal::Ambiguous {
            a: a.get(),
            b: b.get(),
        })),
    }
}

/// Asks that the directory shows no name.
pub fn empty(d: &Dir) -> Result<DirAnswer, NoMemory>
    ensures { IfOk result (λ a. effect_of a d.now ≡ empty_effect d.now) }
{
    let entries = d.as_slice();
    match first_live(entries) {
        None => Ok(answered(Outcome::Done)),
        Some(entry) => {
            let shared = is_shared(entries, entry.name.as_slice());
            let name = shown_name(d.allocator(), entry, shared)?;
            Ok(refused(Refusal::NotEmpty { name }))
        }
    }
}
