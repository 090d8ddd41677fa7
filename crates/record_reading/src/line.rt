ghost use Rattle.std.specs.Prelude.{◌≡◌, ℕ, ◌↔◌, IfOk};
ghost use Rattle.trace_book.specs.declared.record.Record.{Record};
ghost use Rattle.record_words.specs.Fields.{counted_in};
ghost use Rattle.record_reading.specs.Reading.{IsLine, IsLineRead};
ghost use Rattle.record_reading.specs.Records.{line_in};

use crate::RecordFault;
use crate::records::record;
use line_text::two_words;
use locus_ids::NoMemory;
use record_words::fields::counted;
use std::alloc::Global;
use trace_book::Record;

/// The line's number and the record that a line of a trace is, without its line feed. Where the text leaves open what was
/// answered or asked, one record stands for all of that text.
pub fn parse_record(alloc: Global, line: &[u8]) -> Result<(u32, Record), RecordFault>
    ensures found { IfOk result (λ read. IsLineRead line.now read.0 read.1) }
    ensures bad { result ≡ Err RecordFault.Bad → (n : ℕ) (r : Record) → IsLine line.now n r → ⊥ }
{
    match numbered_record(alloc, line)? {
        Some(read) => Ok(read),
        None => Err(RecordFault::Bad),
    }
}

fn numbered_record(alloc: Global, line: &[u8]) -> Result<Option<(u32, Record)>, NoMemory>
    ensures { IfOk result (λ o. o ≡ line_in line.now) }
{
    let Some((number, text)) = two_words(line) else {
        return Ok(None);
    };
    let Some(number) = counted(number) else {
        return Ok(None);
    };
    match record(alloc, text)? {
        Some(what) => Ok(Some((number, what))),
        None => Ok(None),
    }
}
