ghost use Rattle.std.specs.Prelude.{◌≡◌, ℕ, ◌+◌, ◌-◌, ◌<◌, ◌≤◌, length, take, IfOk, MatchResult, vec_len};
ghost use Rattle.std.specs.List.{slice_range};
ghost use Rattle.std.specs.Io.KnownBytes.{Consumes, Keeps, IsAtEnd};
ghost use Rattle.locus_io.specs.Causes.{HasCause};

use locus_io::{ReadFault, Source};

/// Moves the bytes of a range to the front.
pub fn move_to_front(block: &mut Vec<u8>, from: usize, to: usize)
    requires order { from ≤ to }
    requires within { to ≤ vec_len block.old }
    ensures moved { take (to - from) block.new.items ≡ slice_range block.old.items from to }
    ensures len { vec_len block.new ≡ vec_len block.old }
{
    if from > 0 {
        block.copy_within(from..to, 0);
    }
}

/// Takes bytes from the source into the block, from a place on.
pub fn take_at<S: Source>(
    source: &mut S,
    block: &mut Vec<u8>,
    at: usize,
) -> Result<usize, ReadFault>
    requires { at ≤ vec_len block.old }
    ensures len { vec_len block.new ≡ vec_len block.old }
    ensures before { take at block.new.items ≡ take at block.old.items }
    ensures room { IfOk result (λ n. at + n ≤ vec_len block.new) }
    ensures bytes { MatchResult result (λ n. Consumes (S.left source.old) (S.left source.new) (slice_range block.new.items at (at + n))) (λ _. Keeps (S.left source.old) (S.left source.new)) }
    ensures end { IfOk result (λ n. n ≡ 0 → at < vec_len block.old → IsAtEnd (S.left source.new)) }
    ensures cause { HasCause (S.faults source.old) (S.faults source.new) result }
{
    source.take(&mut block[at..])
}
