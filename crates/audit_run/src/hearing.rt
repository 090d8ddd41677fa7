ghost use Rattle.std.specs.Prelude.{◌≡◌, ℕ, ◌+◌, ◌<◌, List, [], ◌∷◌, ◌++◌, length, Some, Err, OnOk, IfOk, IfErr};
ghost use Rattle.audit_input.specs.Input.{Takes};
ghost use Rattle.audit_input.specs.declared.audit_reader.AuditLine.{AuditLine};
ghost use Rattle.audit_input.specs.declared.audit_reader.AuditReader.{AuditReader};
ghost use Rattle.audit_answers.specs.Answers.{IsAnswered};
ghost use Rattle.audit_run.specs.Hearings.{Hears, Judges, MissesTrace, Refuses, TakesBefore, audit_of};

use crate::fault::AuditFault;
use audit_answers::Answer;
use audit_input::{AuditLine, AuditReader};
use audit_tally::Tally;
use locus_ids::NoMemory;
use record_reading::{RecordFault, parse_record};
use schedule_lines::Header;
use std::alloc::Global;
use std::mem::replace;
use trace_audit::{Audit, Verdict};
use trace_book::Record;

/// What is known of the lines of an input so far.
pub struct Hearing {
    /// The header, until the trace begins.
    pub input: AuditReader,
    /// What the records tell, from then on.
    pub audit: Option<Audit>,
    /// How many records there were, and the first line whose record isn't consistent.
    pub tally: Tally,
}

// Taken apart in one place: where a hearing is dropped, the prover sees one call.
impl Drop for Hearing {
    fn drop(self) {
        let Hearing {
            input: _,
            audit: _,
            tally: _,
        } = self;
    }
}

impl Hearing {
    /// Before the first line.
    pub fn new(alloc: Global) -> Hearing
        ensures { Hears [] [] result }
    {
        Hearing {
            input: AuditReader::new(alloc),
            audit: None,
            tally: Tally::new(),
        }
    }

    /// The next line, with its number from 1.
    pub fn take(&mut self, alloc: Global, number: u32, bytes: &[u8]) -> Result<(), RecordFault>
        requires few { self.old.tally.records < 1000000 }
        ensures heard { (all : List (List ℕ)) (lines : List AuditLine) → Hears all lines self.old → number ≡ length all + 1 → OnOk result ((l : AuditLine) × Hears (all ++ bytes.now ∷ []) (lines ++ l ∷ []) self.new) }
        ensures bad { (all : List (List ℕ)) (lines : List AuditLine) → Hears all lines self.old → result ≡ Err RecordFault.Bad → Refuses all lines bytes.now }
    {
        if self.audit.is_none() {
            return self.take_before(alloc, bytes);
        }
        let (line, what) = parse_record(alloc, bytes)?;
        self.judge(number, line, what)?;
        Ok(())
    }

    /// A line before the trace, or the one at which it begins.
    fn take_before(&mut self, alloc: Global, bytes: &[u8]) -> Result<(), RecordFault>
        ensures ok { OnOk result (TakesBefore self.old bytes.now self.new) }
        ensures bad { result ≡ Err RecordFault.Bad → (told : AuditLine) (next : AuditReader) → Takes self.old.input bytes.now told next → ⊥ }
    {
        let told = self.input.read(alloc, bytes)?;
        let begun = match &told {
            AuditLine::Trace => self.begin(alloc),
            AuditLine::Passed => Ok(()),
            AuditLine::Header => Ok(()),
            AuditLine::Record { line: _, what: _ } => Ok(()),
        };
        drop(told);
        begun?;
        Ok(())
    }

    /// The trace begins, in the cluster of the header.
    fn begin(&mut self, alloc: Global) -> Result<(), NoMemory>
        ensures audit { OnOk result (self.new.audit ≡ Some (audit_of self.old.input)) }
        ensures tally { OnOk result (self.new.tally ≡ self.old.tally) }
    {
        let header = replace(&mut self.input.header, Header::new(alloc));
        self.audit = Some(Audit::new(alloc, header.config)?);
        Ok(())
    }

    /// A record. After the first that isn't consistent they are counted alone.
    fn judge(&mut self, number: u32, line: u32, what: Record) -> Result<(), NoMemory>
        requires { self.old.tally.records < 1000000 }
        ensures { OnOk result (Judges number line what self.old self.new) }
    {
        if !self.tally.count() {
            drop(what);
            return Ok(());
        }
        let Some(audit) = &mut self.audit else {
            drop(what);
            return Ok(());
        };
        match audit.take(line, what)? {
            Verdict::Good => self.tally.judged(number, true),
            Verdict::Broken => self.tally.judged(number, false),
        }
        Ok(())
    }

    /// What is answered, where the lines so far are all: nothing where the trace hasn't begun, so that the next line is bad.
    pub fn answer(&self, next: u32) -> Result<Answer, AuditFault>
        ensures answered { (all : List (List ℕ)) (lines : List AuditLine) → Hears all lines self.now → IfOk result (IsAnswered all) }
        ensures short { (all : List (List ℕ)) (lines : List AuditLine) → Hears all lines self.now → IfErr result (λ fault. (fault ≡ AuditFault.BadLine next) × MissesTrace all lines) }
    {
        if self.audit.is_none() {
            return Err(AuditFault::BadLine { line: next });
        }
        match self.tally.broken {
            Some(line) => Ok(Answer::No { line }),
            None => Ok(Answer::Yes {
                records: self.tally.records,
            }),
        }
    }
}
