ghost use Rattle.std.specs.Prelude.{◌≡◌, Option, None, Some};
ghost use Rattle.std.specs.Option.{option_copied, option_map};
ghost use Rattle.tree_model.specs.State.{call_in, is_call_of, words_of};
ghost use Rattle.tree_model.specs.Opening.{site_named, sites_made};
ghost use Rattle.tree_model.specs.Lists.{latest};

use locus_ids::{CallId, Sites};
use trace_book::{Call, OpenMode};
use tree_model::AcceptedCall;

/// The accepted call of this name, the latest.
pub fn call_in(calls: &[AcceptedCall], call: CallId) -> Option<&AcceptedCall>
    ensures { option_copied result ≡ call_in calls.now call }
{
    let mut found = None;
    for row in calls {
        if row.call == call {
            found = Some(row);
        }
    }
    found
}

/// The site from whose version a call resolves.
pub fn site_named(words: Option<&Call>) -> Option<u8>
    ensures { result ≡ site_named (option_copied words.entry) }
{
    match words {
        Some(
            Call::Open {
                path: _,
                mode: OpenMode::Resolve { site },
            },
        ) => Some(*site),
        _ => None,
    }
}

/// The sites that a new file is for: those that the call gives, or all that have a pack.
pub fn sites_made(packs: Sites, words: Option<&Call>) -> Sites
    ensures { result ≡ sites_made packs (option_copied words.entry) }
{
    match words {
        Some(
            Call::Create {
                path: _,
                sites: Some(sites),
            },
        ) => *sites,
        _ => packs,
    }
}
