ghost use Rattle.std.specs.Prelude.{◌≡◌, ℕ, IfOk};
ghost use Rattle.trace_book.specs.declared.record.Record.{Record};
ghost use Rattle.record_reading.specs.Reading.{IsLine};
ghost use Rattle.audit_input.specs.Input.{IsRecordOf};

use line_text::{HeaderStep, LineFault, is_passed, parse_header};
use record_reading::{RecordFault, parse_record};
use schedule_lines::Header;
use std::alloc::Global;
use trace_book::Record;

/// What a line of the input says.
#[derive(Drop)]
pub enum AuditLine {
    /// Nothing: it is empty or a comment.
    Passed,
    /// What the cluster is. The reader's header has it.
    Header,
    /// The trace begins.
    Trace,
    Record { line: u32, what: Record },
}

/// Reads an input line by line.
#[derive(Drop)]
pub struct AuditReader {
    /// What the header lines have said so far.
    pub header: Header,
    /// The line `trace` was read, so that only records may come any more.
    pub traced: bool,
}

/// A line of the trace.
fn record_line(alloc: Global, line: &[u8]) -> Result<AuditLine, RecordFault>
    ensures read { IfOk result (IsRecordOf line.now) }
    ensures bad { result ≡ Err RecordFault.Bad → (n : ℕ) (r : Record) → IsLine line.now n r → ⊥ }
{
    let (line, what) = parse_record(alloc, line)?;
    Ok(AuditLine::Record { line, what })
}

impl AuditReader {
    ghost use Rattle.std.specs.Prelude.{◌≡◌, IfOk, OnErr, true, false};
    ghost use Rattle.audit_input.specs.Input.{Takes, TakesHeader, nothing_read};
    ghost use Rattle.audit_input.specs.declared.audit_reader.AuditLine.{AuditLine};

    /// Before the first line. The names of mounts are kept with this allocator.
    pub fn new(alloc: Global) -> AuditReader
        ensures { result ≡ nothing_read }
    {
        AuditReader {
            header: Header::new(alloc),
            traced: false,
        }
    }

    /// The next line. After a fault the reader is as it was.
    pub fn read(&mut self, alloc: Global, line: &[u8]) -> Result<AuditLine, RecordFault>
        ensures read { IfOk result (λ told. Takes self.old line.now told self.new) }
        ensures bad { result ≡ Err RecordFault.Bad → (told : AuditLine) (after : AuditReader) → Takes self.old line.now told after → ⊥ }
        ensures err { OnErr result (self.new ≡ self.old) }
    {
        if self.traced {
            return record_line(alloc, line);
        }
        if is_passed(line) {
            return Ok(AuditLine::Passed);
        }
        if line == b"trace".as_slice() {
            return self.begin();
        }
        self.header_line(alloc, line)
    }

    /// The trace begins, where the header is whole.
    fn begin(&mut self) -> Result<AuditLine, RecordFault>
        requires { self.old.traced ≡ false }
        ensures read { IfOk result (λ told. (told ≡ AuditLine.Trace) × (self.old.header.whole ≡ true) × (self.new ≡ record { header = self.old.header; traced = true })) }
        ensures bad { result ≡ Err RecordFault.Bad → self.old.header.whole ≡ false }
        ensures err { OnErr result (self.new ≡ self.old) }
    {
        if !self.header.whole {
            return Err(RecordFault::Bad);
        }
        self.traced = true;
        Ok(AuditLine::Trace)
    }

    /// Takes a header line.
    fn header_line(&mut self, alloc: Global, line: &[u8]) -> Result<AuditLine, RecordFault>
        requires { self.old.traced ≡ false }
        ensures read { IfOk result (λ told. (told ≡ AuditLine.Header) × TakesHeader self.old line.now self.new) }
        ensures bad { result ≡ Err RecordFault.Bad → (after : AuditReader) → TakesHeader self.old line.now after → ⊥ }
        ensures err { OnErr result (self.new ≡ self.old) }
    {
        match parse_header(alloc, line, &mut self.header) {
            Ok(HeaderStep::Taken) => Ok(AuditLine::Header),
            Ok(HeaderStep::NotHeader) => Err(RecordFault::Bad),
            Err(LineFault::Bad) => Err(RecordFault::Bad),
            Err(LineFault::NoMemory) => Err(RecordFault::NoMemory),
        }
    }
}
