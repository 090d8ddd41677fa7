// The text of the counts of a load.
ghost use Rattle.std.specs.Prelude.{◌≡◌, ◌++◌, IfOk, OnOk};
ghost use Rattle.the_run.specs.Commands.{count_line, counts_text as text_of};
ghost use Rattle.run_book.specs.Writings.{counts_in};

use locus_ids::{Bytes, NoMemory};
use run_book::RunCounts;
use std::alloc::Global;

/// Adds the line of one count.
fn add_count(name: &[u8], count: u64, text: &mut Bytes) -> Result<(), NoMemory>
    ensures { OnOk result (text.new ≡ text.old ++ count_line name.now count) }
{
    let digits = count.to_string(text.allocator())?;
    text.append(name)?;
    text.append(b" ")?;
    text.append(digits.as_bytes())?;
    text.append(b"\n")
}

/// The lines of all counts.
pub(crate) fn counts_text(alloc: Global, lines: u32, counts: &RunCounts) -> Result<Bytes, NoMemory>
    ensures { IfOk result (λ text. text ≡ text_of lines (counts_in counts.now)) }
{
    let mut text = Bytes::new(alloc);
    add_count(b"lines", u64::from(lines), &mut text)?;
    add_count(b"calls", counts.calls, &mut text)?;
    add_count(b"replies", counts.replies, &mut text)?;
    add_count(b"ok", counts.ok, &mut text)?;
    add_count(b"commits", counts.commits, &mut text)?;
    add_count(b"adopts", counts.adopts, &mut text)?;
    add_count(b"joins", counts.joins, &mut text)?;
    add_count(b"voids", counts.voids, &mut text)?;
    Ok(text)
}
