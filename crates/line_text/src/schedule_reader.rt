use crate::LineFault;
use crate::events::parse_line;
use crate::headers::{HeaderStep, parse_header};
use crate::words::is_passed;
use schedule_lines::{Header, Line};
use std::alloc::Global;

/// What a line of a schedule says.
#[derive(Drop)]
pub enum LineRead {
    /// Nothing: it is empty or a comment.
    Passed,
    /// What the cluster is. The reader's header has it.
    Header,
    Event { line: Line },
}

/// Reads a schedule line by line.
#[derive(Drop)]
pub struct ScheduleReader {
    /// What the header lines have said so far.
    pub header: Header,
    /// An event line was read, so that no header line may come any more.
    pub begun: bool,
}

impl ScheduleReader {
    ghost use Rattle.std.specs.Prelude.{◌≡◌, false, [], List, IfOk, OnErr};
    ghost use Rattle.schedule_lines.specs.Schedule.{Reads};
    ghost use Rattle.schedule_lines.specs.Spelling.{is_passed};
    ghost use Rattle.schedule_lines.specs.declared.line.ScheduleLine.{ScheduleLine};
    ghost use Rattle.line_text.specs.ReadSoFar.{ReadsNext, TakesHeader, reader_after};

    /// Before the first line. The names of mounts are kept with this allocator.
    pub fn new(alloc: Global) -> ScheduleReader
        ensures { result ≡ reader_after [] }
    {
        ScheduleReader {
            header: Header::new(alloc),
            begun: false,
        }
    }

    /// The next line. After a fault the reader is as it was.
    pub fn read(&mut self, alloc: Global, line: &[u8]) -> Result<LineRead, LineFault>
        ensures read { (earlier : List ScheduleLine) → self.old ≡ reader_after earlier → IfOk result (λ told. ReadsNext earlier line.now told self.new) }
        ensures bad { (earlier : List ScheduleLine) → self.old ≡ reader_after earlier → result ≡ Err LineFault.Bad → (l : ScheduleLine) → Reads earlier line.now l → ⊥ }
        ensures err { OnErr result (self.new ≡ self.old) }
    {
        if is_passed(line) {
            return Ok(LineRead::Passed);
        }
        match self.header_step(alloc, line)? {
            HeaderStep::Taken => Ok(LineRead::Header),
            HeaderStep::NotHeader => {
                let line = parse_line(alloc, line, &self.header)?;
                self.begun = true;
                Ok(LineRead::Event { line })
            }
        }
    }

    /// Takes a header line where one may still come.
    fn header_step(&mut self, alloc: Global, line: &[u8]) -> Result<HeaderStep, LineFault>
        ensures step { (earlier : List ScheduleLine) → self.old ≡ reader_after earlier → IfOk result (TakesHeader earlier line.now self.new) }
        ensures stays { result ≡ Ok HeaderStep.NotHeader → self.new ≡ self.old }
        ensures bad { (earlier : List ScheduleLine) → self.old ≡ reader_after earlier → is_passed line.now ≡ false → result ≡ Err LineFault.Bad → (l : ScheduleLine) → Reads earlier line.now l → ⊥ }
        ensures err { OnErr result (self.new ≡ self.old) }
    {
        if self.begun {
            return Ok(HeaderStep::NotHeader);
        }
        parse_header(alloc, line, &mut self.header)
    }
}
