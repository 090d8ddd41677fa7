ghost use Rattle.std.specs.Prelude.{◌≡◌, ◌∷◌, [], codes, Err, IfOk};
ghost use Rattle.given_words.specs.Plain.{words_given};
ghost use Rattle.command_words.specs.Words.{IsCommand};

use crate::numbers::number_in;
use crate::plain_words::plain_words;
use flat_words::given_by;
use given_words::{Given, GivenFault};
use locus_ids::{Names, NoMemory};
use std::alloc::{AllocError, AllocFailed, Global};
use thiserror::Error;

/// What the program is asked to do.
#[derive(Clone, Copy)]
pub enum Command {
    /// A schedule is run.
    Run,
    /// Calls on a fixed cluster are answered.
    Tree,
    /// A trace that anybody wrote is judged.
    Audit,
    /// The generated load of this number is run, with so many events.
    Make { number: u64, events: u32 },
}

/// Why words give no command.
#[derive(Clone, Copy, Debug, Error)]
pub enum WordsFault {
    #[error("bad words")]
    Bad,
    #[error("no memory")]
    NoMemory,
}

/// The command that the words are. `Bad` only where they are none.
pub fn read_words(alloc: Global, words: &Names) -> Result<Command, WordsFault>
    ensures command { IfOk result (λ c. IsCommand words.now c) }
    ensures bad { result ≡ Err WordsFault.Bad → (c : Command) → IsCommand words.now c → ⊥ }
{
    let texts = plain_words(alloc, words)?;
    match given_by(alloc, texts.as_slice()) {
        Ok(given) => command_given(alloc, &given),
        Err(GivenFault::Count) => Err(WordsFault::Bad),
        Err(GivenFault::NoMemory) => Err(WordsFault::NoMemory),
    }
}

fn command_given(alloc: Global, given: &Given) -> Result<Command, WordsFault>
    ensures command { IfOk result (λ c. IsCommand (words_given given.now) c) }
    ensures bad { result ≡ Err WordsFault.Bad → (c : Command) → IsCommand (words_given given.now) c → ⊥ }
{
    match given {
        Given::One(word) => lone_command(word),
        Given::Three(word, number, events) => {
            if *word != "make" {
                return Err(WordsFault::Bad);
            }
            load_command(alloc, number, events)
        }
    }
}

fn lone_command(word: &str) -> Result<Command, WordsFault>
    ensures command { IfOk result (λ c. IsCommand (word.now ∷ []) c) }
    ensures bad { result ≡ Err WordsFault.Bad → (c : Command) → IsCommand (word.now ∷ []) c → ⊥ }
{
    if word == "run" {
        Ok(Command::Run)
    } else if word == "tree" {
        Ok(Command::Tree)
    } else if word == "audit" {
        Ok(Command::Audit)
    } else {
        Err(WordsFault::Bad)
    }
}

/// The load of a number with so many events, by the words for both.
fn load_command(alloc: Global, number: &str, events: &str) -> Result<Command, WordsFault>
    ensures command { IfOk result (λ c. IsCommand (codes "make" ∷ number.now ∷ events.now ∷ []) c) }
    ensures bad { result ≡ Err WordsFault.Bad → (c : Command) → IsCommand (codes "make" ∷ number.now ∷ events.now ∷ []) c → ⊥ }
{
    let number = number_in(alloc, number)?;
    let count = number_in(alloc, events)?;
    if count < 1 || 2000 < count {
        return Err(WordsFault::Bad);
    }
    Ok(Command::Make {
        number,
        events: count as u32,
    })
}

impl From<NoMemory> for WordsFault {
    ghost use Rattle.std.specs.Prelude.{◌≡◌};
    ghost use Rattle.command_words.specs.declared.command.WordsFault.TheVariants.{NoMemory as OutOfMemory};

    ghost from_gives = { λ _ fault. fault ≡ OutOfMemory };

    fn from(_: NoMemory) -> WordsFault {
        WordsFault::NoMemory
    }
}

impl From<AllocError> for WordsFault {
    ghost use Rattle.std.specs.Prelude.{◌≡◌};
    ghost use Rattle.command_words.specs.declared.command.WordsFault.TheVariants.{NoMemory as OutOfMemory};

    ghost from_gives = { λ _ fault. fault ≡ OutOfMemory };

    fn from(_: AllocError) -> WordsFault {
        WordsFault::NoMemory
    }
}

impl<T: Drop> From<AllocFailed<T>> for WordsFault {
    ghost use Rattle.std.specs.Prelude.{◌≡◌};
    ghost use Rattle.command_words.specs.declared.command.WordsFault.TheVariants.{NoMemory as OutOfMemory};

    ghost from_gives = { λ _ fault. fault ≡ OutOfMemory };

    fn from(_: AllocFailed<T>) -> WordsFault {
        WordsFault::NoMemory
    }
}
