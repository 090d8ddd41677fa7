//! The words of a command line, counted and given as they stand: `flat_words` without the library that reads words there. The first run on
//! a fresh machine, which is of an unproved build, takes this room in its place: the clauses are the same, and the build is a fifth sooner.
#![tactic(auto)]

ghost use Rattle.std.specs.Prelude.{◌≡◌, ◌≢◌, Err, IfOk, length};
ghost use Rattle.std.specs.List.{All};
ghost use Rattle.given_words.specs.Plain.{IsPlain, texts, words_given};

use given_words::{Given, GivenFault};
use std::alloc::Global;

/// The words, where they are one or three. `Count` only where they are neither.
pub fn given_by<'a>(_alloc: Global, words: &'a [&'a str]) -> Result<Given<'a>, GivenFault>
    requires { All IsPlain (texts words.now) }
    ensures given { IfOk result (λ given. words_given given ≡ texts words.now) }
    ensures count { result ≡ Err GivenFault.Count → (length (texts words.now) ≢ 1) × (length (texts words.now) ≢ 3) }
{
    match words {
        [word] => Ok(Given::One(word)),
        [word, number, events] => Ok(Given::Three(word, number, events)),
        _ => Err(GivenFault::Count),
    }
}
