ghost use Rattle.std.specs.Prelude.{◌≡◌, ℕ, ◌++◌, OnOk};
ghost use Rattle.packet_order.specs.Orders.{together};
ghost use Rattle.the_run.specs.Commands.{reply_line};
ghost use Rattle.run_book.specs.Ledgers.{lines_text};
ghost use Rattle.run_book.specs.Writings.{lines_written, replies_of};

use locus_ids::{Bytes, NoMemory};
use packet_order::Part;
use trace_book::Record;
use trace_text::render;

/// What a book writes of the records of a run.
#[derive(Clone, Copy)]
pub enum Writing {
    /// The text of each record with its line's number.
    Trace,
    /// The replies alone, without line numbers.
    Replies,
    Nothing,
}

/// Adds the reply of a record, without the line's number, if it is one.
fn add_reply(what: &Record, out: &mut Bytes) -> Result<(), NoMemory>
    ensures { OnOk result (out.new ≡ out.old ++ reply_line what.now) }
{
    let Record::Answer { .. } = what else {
        return Ok(());
    };
    let mut line = Bytes::new(out.allocator());
    render(what, 0, &mut line)?;
    // The line begins with the one digit of its number and a space.
    match line.as_slice() {
        [_, _, reply @ ..] => out.append(reply),
        _ => Err(NoMemory),
    }
}

/// Adds the replies of some records.
fn add_replies(records: &[Record], out: &mut Bytes) -> Result<(), NoMemory>
    ensures { OnOk result (out.new ≡ out.old ++ replies_of records.now) }
{
    for what in records {
        add_reply(what, out)?;
    }
    Ok(())
}

/// Adds the replies of all parts.
fn add_all_replies(parts: &[Part], out: &mut Bytes) -> Result<(), NoMemory>
    ensures { OnOk result (out.new ≡ out.old ++ replies_of (together parts.now).records) }
{
    for part in parts {
        add_replies(part.records(), out)?;
    }
    Ok(())
}

/// Adds what is written of the records of a line, whose text in a trace is this.
pub(crate) fn add_written(
    writing: Writing,
    parts: &[Part],
    text: &Bytes,
    fresh: &mut Bytes,
) -> Result<(), NoMemory>
    ensures { (n : ℕ) → text.now ≡ lines_text n (together parts.now).records → OnOk result (fresh.new ≡ fresh.old ++ lines_written writing n (together parts.now).records) }
{
    match writing {
        Writing::Trace => fresh.append(text.as_slice()),
        Writing::Replies => add_all_replies(parts, fresh),
        Writing::Nothing => Ok(()),
    }
}
