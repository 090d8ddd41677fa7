ghost use Rattle.std.specs.Prelude.{◌≡◌, ◌<◌, ◌≤◌, [], false, length};
ghost use Rattle.file_content.specs.Pages.{pages_needed};
ghost use Rattle.role_steps.specs.of_file_effects.Effects.{is_refusal};
ghost use Rattle.role_steps.specs.of_file_effects.Works.{result_in};

use locus_ids::Refusal;
use trace_book::Outcome;

/// Whether it is a refusal.
pub(crate) fn is_refusal(outcome: &Outcome) -> bool
    ensures { result ≡ is_refusal outcome.now }
{
    match outcome {
        Outcome::No { why: _ } => true,
        Outcome::Done => false,
        Outcome::Found { ino: _, kind: _ } => false,
        Outcome::Data { bytes: _ } => false,
        Outcome::Committed { stamp: _ } => false,
    }
}

/// What an effect gives that has this result, changes these pages, and has a count that can't rise or has none, where so
/// many pages are free and those were changed before.
pub(crate) fn judged(
    free: u16,
    changed: &[usize],
    outcome: Outcome,
    pages: &[usize],
    spent: bool,
) -> Outcome
    requires { length pages.now ≤ 65535 }
    ensures { result ≡ result_in free changed.now (record { result = outcome; content = []; pages = pages.now; counts = false; spent = spent }) }
{
    if is_refusal(&outcome) {
        return outcome;
    }
    let needed = few_needed(pages, changed);
    if needed > free {
        let why = Refusal::NoSpace { needed, free };
        return Outcome::No { why };
    }
    if spent {
        return Outcome::No {
            why: Refusal::Spent,
        };
    }
    outcome
}

/// How many of a few pages weren't changed before.
fn few_needed(pages: &[usize], changed: &[usize]) -> u16
    requires { length pages.now ≤ 65535 }
    ensures { result ≡ pages_needed pages.now changed.now }
{
    let mut needed = 0;
    for page in pages {
        if !changed.contains(page) {
            needed += 1;
        }
    }
    needed
}
