ghost use Rattle.std.specs.Prelude.{◌≡◌, ◌++◌, IfOk, OnOk};
ghost use Rattle.audit_answers.specs.Answers.{answer_text, answer_line};

use locus_ids::{Bytes, NoMemory};
use std::alloc::Global;

/// What an audit answers.
#[derive(Clone, Copy, Debug)]
pub enum Answer {
    /// All records are consistent, and there are so many.
    Yes { records: u32 },
    /// This line of the input, from 1, is the first whose record isn't consistent.
    No { line: u32 },
}

/// Adds a line of a word and a number.
fn add_line(word: &[u8], number: u32, text: &mut Bytes) -> Result<(), NoMemory>
    ensures { OnOk result (text.new ≡ text.old ++ answer_line word.now number) }
{
    let digits = number.to_string(text.allocator())?;
    text.append(word)?;
    text.append(b" ")?;
    text.append(digits.as_bytes())?;
    text.append(b"\n")
}

impl Answer {
    /// The line that is written.
    pub fn text(&self, alloc: Global) -> Result<Bytes, NoMemory>
        ensures { IfOk result (λ text. text ≡ answer_text self.now) }
    {
        let mut text = Bytes::new(alloc);
        match self {
            Answer::Yes { records } => add_line(b"yes", *records, &mut text)?,
            Answer::No { line } => add_line(b"no", *line, &mut text)?,
        }
        Ok(text)
    }
}
