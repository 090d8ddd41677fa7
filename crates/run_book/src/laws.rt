ghost use Rattle.std.specs.Prelude.{◌≡◌, ℕ, List, ◌++◌};
ghost use Rattle.std.specs.List.{flat_map};
ghost use Rattle.trace_book.specs.declared.entry.Entry.{Entry};
ghost use Rattle.trace_book.specs.declared.record.Record.{Record};
ghost use Rattle.wire_messages.specs.declared.packet.Packet.{Packet};
ghost use Rattle.role_steps.specs.Views.{Told};
ghost use Rattle.site_frame.specs.Printed.{printed};
ghost use Rattle.the_run.specs.Worlds.{World, happened};
ghost use Rattle.the_run.specs.Runs.{entries_of_run, printed as printed_of};
ghost use Rattle.the_run.specs.Commands.{counts_onto, no_counts, reply_line};
ghost use Rattle.run_book.specs.Ledgers.{Ledger, books, Keeps, Elsewhere};

use crate::Writing;

/// An event of the run is in the book as the book's own call says: the packets, and of what is told the records that are printed.
pub fn book_is_the_runs()
    ensures { (n : ℕ) (ps : List Packet) (told : List Told) (change : World → World) (before : List ℕ) (w : World) (b : Ledger) → Elsewhere w (change w) → Keeps before w b → Keeps before (happened n ps told change w) (books n ps (printed told) b) }
{}

/// What was taken and the fresh text are the trace of the run, or its replies, as long as the book writes them; the counts are
/// those of its records.
pub fn books_write()
    ensures trace { (taken : List ℕ) (w : World) (b : Ledger) → Keeps taken w b → b.writing ≡ Writing.Trace → printed_of w ≡ taken ++ b.fresh }
    ensures replies { (taken : List ℕ) (w : World) (b : Ledger) → Keeps taken w b → b.writing ≡ Writing.Replies → flat_map (λ (e : Entry). reply_line e.what) (entries_of_run w) ≡ taken ++ b.fresh }
    ensures kept { (n : ℕ) (ps : List Packet) (rs : List Record) (b : Ledger) → (books n ps rs b).writing ≡ b.writing }
    ensures counts { (taken : List ℕ) (w : World) (b : Ledger) → Keeps taken w b → counts_onto no_counts (entries_of_run w) ≡ b.counts }
{}
