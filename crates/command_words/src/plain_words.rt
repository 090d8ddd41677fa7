ghost use Rattle.std.specs.Prelude.{◌≡◌, Err, IfNone, IfOk, IfSome};
ghost use Rattle.std.specs.List.{All};
ghost use Rattle.given_words.specs.Plain.{texts};
ghost use Rattle.given_words.specs.Plain.{IsPlain};

use crate::command::WordsFault;
use locus_ids::Names;
use std::alloc::Global;

/// The words as texts, where each is some text that doesn't begin as a flag does.
pub(crate) fn plain_words(alloc: Global, words: &Names) -> Result<Vec<&str>, WordsFault>
    ensures texts { IfOk result (λ made. texts made.items ≡ words.now) }
    ensures plain { IfOk result (λ made. All IsPlain words.now) }
    ensures bad { result ≡ Err WordsFault.Bad → All IsPlain words.now → ⊥ }
{
    let mut plain = Vec::new(alloc);
    for word in words.as_slice() {
        match plain_text(word.as_slice()) {
            Some(text) => plain.push(text)?,
            None => return Err(WordsFault::Bad),
        }
    }
    Ok(plain)
}

fn plain_text(word: &[u8]) -> Option<&str>
    ensures text { IfSome result (λ text. (text.now ≡ word.now) × IsPlain word.now) }
    ensures none { IfNone result (IsPlain word.now → ⊥) }
{
    let Ok(text) = str::from_utf8(word) else {
        return None;
    };
    match word {
        [] => None,
        [b'-', ..] => None,
        [_, ..] => Some(text),
    }
}
