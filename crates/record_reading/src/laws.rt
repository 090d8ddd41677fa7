ghost use Rattle.std.specs.Prelude.{◌≡◌, true};
ghost use Rattle.trace_book.specs.Text.{record_text};
ghost use Rattle.trace_book.specs.declared.record.Record.{Record};
ghost use Rattle.record_reading.specs.AsRead.{as_read};
ghost use Rattle.record_reading.specs.Ranges.{is_record};
ghost use Rattle.record_reading.specs.Reading.{is_one_line};

/// The record that stands for a text has it, no text has a line feed, and all records of one text have one that stands for them.
pub fn texts_tell_records()
    ensures text { (r : Record) → is_record r ≡ true → record_text (as_read r) ≡ record_text r }
    ensures formed { (r : Record) → is_record r ≡ true → is_record (as_read r) ≡ true }
    ensures line { (r : Record) → is_record r ≡ true → is_one_line (record_text r) ≡ true }
    ensures one { (r s : Record) → is_record r ≡ true → is_record s ≡ true → record_text r ≡ record_text s → as_read r ≡ as_read s }
{}
