ghost use Rattle.std.specs.Prelude.{◌≡◌, [], false};
ghost use Rattle.locus_io.specs.Causes.{Rose};
ghost use Rattle.audit_run.specs.Ends.{Ends};
ghost use Rattle.audit_run.specs.Hearings.{Hears};

use crate::fault::AuditFault;
use crate::hearing::Hearing;
use crate::lines::next_line;
use audit_answers::Answer;
use line_reader::LineReader;
use locus_io::Source;
use record_reading::RecordFault;
use std::alloc::Global;

/// How many bytes a line of the input may have: a commit's record has its whole content.
const LINE_BYTES: u32 = 4_194_304;

/// Reads the input to its end, and says what is answered.
#[tactic(none)]
pub fn audit<S: Source>(alloc: Global, source: &mut S) -> Result<Answer, AuditFault>
    ensures ends { Ends result (S.left source.old) (S.left source.new) }
    ensures fault { result ≡ Err AuditFault.ReadFault → Rose (S.faults source.old) (S.faults source.new) }
{
    match LineReader::new(alloc, LINE_BYTES) {
        Ok(mut reader) => hear_lines(alloc, &mut reader, source),
        Err(_) => Err(AuditFault::NoMemory),
    }
}

/// Hears the lines, of which nothing is known yet.
#[tactic(none)]
fn hear_lines<S: Source>(
    alloc: Global,
    reader: &mut LineReader,
    source: &mut S,
) -> Result<Answer, AuditFault>
    requires unread { reader.old ≡ record { ahead = []; line = []; number = 0; limit = 4194304; ended = false } }
    ensures ends { Ends result (S.left source.old) (S.left source.new) }
    ensures fault { result ≡ Err AuditFault.ReadFault → Rose (S.faults source.old) (S.faults source.new) }
{
    let mut hearing = Hearing::new(alloc);
    hear_each(alloc, reader, source, &mut hearing)
}

/// Hears each line. What is known of them is the caller's, so that none of the loop's ends drops it.
#[tactic(none)]
fn hear_each<S: Source>(
    alloc: Global,
    reader: &mut LineReader,
    source: &mut S,
    hearing: &mut Hearing,
) -> Result<Answer, AuditFault>
    requires unread { reader.old ≡ record { ahead = []; line = []; number = 0; limit = 4194304; ended = false } }
    requires fresh { Hears [] [] hearing.old }
    ensures ends { Ends result (S.left source.old) (S.left source.new) }
    ensures fault { result ≡ Err AuditFault.ReadFault → Rose (S.faults source.old) (S.faults source.new) }
{
    loop {
        match next_line(reader, source) {
            Ok(true) => {}
            Ok(false) => return hearing.answer(reader.number() + 1),
            Err(fault) => return Err(fault),
        }
        match hearing.take(alloc, reader.number(), reader.bytes()) {
            Ok(()) => {}
            Err(RecordFault::Bad) => {
                return Err(AuditFault::BadLine {
                    line: reader.number(),
                });
            }
            Err(RecordFault::NoMemory) => return Err(AuditFault::NoMemory),
        }
    }
}
