ghost use Rattle.std.specs.Prelude.{◌≡◌, [], ◌≤◌, ◌<◌, ◌+◌, ◌⊎◌, length, OnErr, true, false};
ghost use Rattle.std.specs.Io.KnownBytes.{IsAtEnd};
ghost use Rattle.locus_io.specs.Causes.{Rose};
ghost use Rattle.line_reader.specs.Reading.{ReadsLine, IsLong};
ghost use Rattle.line_reader.specs.Readers.{IfTold, Stays};

use crate::fault::AuditFault;
use line_reader::{LineReader, Next};
use locus_io::Source;

/// Reads the next line of the input, and says whether there is one. The audit ends where the line is too long, or is one too many.
pub(crate) fn next_line<S: Source>(
    reader: &mut LineReader,
    source: &mut S,
) -> Result<bool, AuditFault>
    ensures line { result ≡ Ok true → IfTold reader.old reader.new (S.left source.old) (S.left source.new) (ReadsLine reader.new.line) }
    ensures short { result ≡ Ok true → length reader.new.line ≤ reader.old.limit }
    ensures counted { result ≡ Ok true → reader.new.number ≡ reader.old.number + 1 }
    ensures few { reader.new.number ≤ 1000000 }
    ensures limit { reader.new.limit ≡ reader.old.limit }
    ensures end { result ≡ Ok false → IfTold reader.old reader.new (S.left source.old) (S.left source.new) (λ xs ys. xs ≡ []) }
    ensures stays { result ≡ Ok false → Stays reader.old reader.new (S.left source.old) (S.left source.new) }
    ensures long { result ≡ Err AuditFault.LongLine → IfTold reader.old reader.new (S.left source.old) (S.left source.new) (λ xs ys. IsLong reader.old.limit xs) }
    ensures early { result ≡ Err AuditFault.LongLine → reader.old.number < 1000000 }
    ensures many { result ≡ Err AuditFault.ManyLines → IfTold reader.old reader.new (S.left source.old) (S.left source.new) (λ xs ys. 0 < length xs) }
    ensures full { result ≡ Err AuditFault.ManyLines → reader.old.number ≡ 1000000 }
    ensures fault { result ≡ Err AuditFault.ReadFault → Rose (S.faults source.old) (S.faults source.new) }
    ensures asks_no_more { reader.old.ended ≡ true → (source.new ≡ source.old) × (reader.new.ended ≡ true) }
    ensures seen { reader.old.ended ≡ false → reader.new.ended ≡ true → IsAtEnd (S.left source.new) }
    ensures only { OnErr result ((result ≡ Err AuditFault.ReadFault) ⊎ (result ≡ Err AuditFault.LongLine) ⊎ (result ≡ Err AuditFault.ManyLines)) }
    ensures later { S.faults source.old ≤ S.faults source.new }
{
    match reader.next(source) {
        Ok(Next::Line) => Ok(true),
        Ok(Next::End) => Ok(false),
        Ok(Next::LongLine) => Err(AuditFault::LongLine),
        Ok(Next::TooMany) => Err(AuditFault::ManyLines),
        Err(_) => Err(AuditFault::ReadFault),
    }
}
