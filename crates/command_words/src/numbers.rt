ghost use Rattle.std.specs.Prelude.{◌≡◌, ℕ, ◌<◌, ◌^◌, Err, IfOk};
ghost use Rattle.std.specs.Fmt.{decimal};

use crate::command::WordsFault;
use std::alloc::Global;

/// The number that the word is in decimal digits, with no sign and no leading zero.
pub(crate) fn number_in(alloc: Global, word: &str) -> Result<u64, WordsFault>
    ensures number { IfOk result (λ n. word.now ≡ decimal n) }
    ensures bad { result ≡ Err WordsFault.Bad → (n : ℕ) → n < 2 ^ 64 → word.now ≡ decimal n → ⊥ }
{
    let Ok(number) = word.parse::<u64>() else {
        return Err(WordsFault::Bad);
    };
    let own_text = number.to_string(alloc)?;
    if own_text.as_str() != word {
        return Err(WordsFault::Bad);
    }
    Ok(number)
}
