ghost use Rattle.std.specs.Prelude.{◌≡◌, [], ◌≤◌, ◌<◌, ◌+◌, ◌⊎◌, length, OnErr, true, false};
ghost use Rattle.std.specs.Io.KnownBytes.{IsAtEnd};
ghost use Rattle.locus_io.specs.Causes.{Rose};
ghost use Rattle.line_reader.specs.Reading.{ReadsLine, EndsInFeed, IsLong, has_feed};
ghost use Rattle.line_reader.specs.Readers.{IfTold, Stays};

use crate::status::{Limited, Status};
use line_reader::{LineReader, Next};
use locus_io::Source;

/// Reads the next line of the input, and says whether there is one. The run ends where the line is too long, or is one
/// too many.
pub(crate) fn next_line<S: Source>(reader: &mut LineReader, source: &mut S) -> Result<bool, Status>
    ensures line { result ≡ Ok true → IfTold reader.old reader.new (S.left source.old) (S.left source.new) (ReadsLine reader.new.line) }
    ensures feed { result ≡ Ok true → reader.new.ended ≡ false → IfTold reader.old reader.new (S.left source.old) (S.left source.new) (EndsInFeed reader.new.line) }
    ensures short { result ≡ Ok true → length reader.new.line ≤ reader.old.limit }
    ensures counted { result ≡ Ok true → reader.new.number ≡ reader.old.number + 1 }
    ensures few { reader.new.number ≤ 1000000 }
    ensures limit { reader.new.limit ≡ reader.old.limit }
    ensures end { result ≡ Ok false → IfTold reader.old reader.new (S.left source.old) (S.left source.new) (λ xs ys. xs ≡ []) }
    ensures stays { result ≡ Ok false → Stays reader.old reader.new (S.left source.old) (S.left source.new) }
    ensures long { result ≡ Err (Status.Limit Limited.Line) → IfTold reader.old reader.new (S.left source.old) (S.left source.new) (λ xs ys. IsLong reader.old.limit xs) }
    ensures early { result ≡ Err (Status.Limit Limited.Line) → reader.old.number < 1000000 }
    ensures many { result ≡ Err (Status.Limit Limited.Lines) → IfTold reader.old reader.new (S.left source.old) (S.left source.new) (λ xs ys. 0 < length xs) }
    ensures full { result ≡ Err (Status.Limit Limited.Lines) → reader.old.number ≡ 1000000 }
    ensures fault { result ≡ Err Status.ReadFault → Rose (S.faults source.old) (S.faults source.new) }
    ensures kept { result ≡ Err Status.ReadFault → Stays reader.old reader.new (S.left source.old) (S.left source.new) }
    ensures part { result ≡ Err Status.ReadFault → has_feed reader.new.ahead ≡ false }
    ensures open { result ≡ Err Status.ReadFault → reader.new.ended ≡ false }
    ensures asks_no_more { reader.old.ended ≡ true → (source.new ≡ source.old) × (reader.new.ended ≡ true) }
    ensures seen { reader.old.ended ≡ false → reader.new.ended ≡ true → IsAtEnd (S.left source.new) }
    ensures only { OnErr result ((result ≡ Err Status.ReadFault) ⊎ (result ≡ Err (Status.Limit Limited.Line)) ⊎ (result ≡ Err (Status.Limit Limited.Lines))) }
    ensures later { S.faults source.old ≤ S.faults source.new }
{
    match reader.next(source) {
        Ok(Next::Line) => Ok(true),
        Ok(Next::End) => Ok(false),
        Ok(Next::LongLine) => Err(Status::Limit {
            what: Limited::Line,
        }),
        Ok(Next::TooMany) => Err(Status::Limit {
            what: Limited::Lines,
        }),
        Err(_) => Err(Status::ReadFault),
    }
}
