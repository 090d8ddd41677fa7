ghost use Rattle.std.specs.Prelude.{◌≡◌, ◌≤◌, ◌==◌, length, take, false, position, MatchOption};
ghost use Rattle.line_reader.specs.Reading.{has_feed, IsFirstFeed};
ghost use Rattle.line_reader.specs.Scans.{IsScan};

/// What the bytes taken ahead show of the next line.
#[derive(Clone, Copy)]
pub enum Scan {
    /// The line is whole, and has so many bytes.
    Whole(usize),
    /// The line is too long.
    Long,
    /// It has no end yet.
    Open,
}

/// The place of the first line feed.
pub fn feed_in(bytes: &[u8]) -> Option<usize>
    ensures { MatchOption result (has_feed bytes.now ≡ false) (IsFirstFeed bytes.now) }
{
    position_of_feed(bytes)
}

fn position_of_feed(bytes: &[u8]) -> Option<usize>
    ensures { result ≡ position (λ b. b == 10) bytes.now }
{
    bytes.iter().position(|b| *b == b'\n')
}

/// Looks for the end of the first line, of which `seen` bytes have no line feed.
pub fn look_for_end(ahead: &[u8], limit: u32, seen: usize) -> Scan
    requires seen { seen ≤ length ahead.now }
    requires short { seen ≤ limit }
    requires free { has_feed (take seen ahead.now) ≡ false }
    ensures { IsScan ahead.now limit result }
{
    let most = limit as usize + 1;
    let end = ahead.len().min(most);
    match feed_in(&ahead[seen..end]) {
        Some(at) => Scan::Whole(seen + at),
        None if ahead.len() >= most => Scan::Long,
        None => Scan::Open,
    }
}
