ghost use Rattle.std.specs.Prelude.{◌≡◌, ◌==◌, IfOk, OnOk};
ghost use Rattle.std.specs.List.{slice_split};
ghost use Rattle.trace_book.specs.Names.{components, but_last, last_of};

use locus_ids::{Bytes, Names, NoMemory};
use std::alloc::Global;

/// What stands after each slash of a path that begins with one; nothing of `/` alone.
pub fn components(alloc: Global, path: &[u8]) -> Result<Names, NoMemory>
    ensures { IfOk result (λ names. names ≡ components path.now) }
{
    if path.len() <= 1 {
        return Ok(Names::new(alloc));
    }
    pieces(alloc, &path[1..])
}

/// The pieces between slashes, with an empty one where slashes meet.
fn pieces(alloc: Global, text: &[u8]) -> Result<Names, NoMemory>
    ensures { IfOk result (λ names. names ≡ slice_split (λ b. b == 47) text.now) }
{
    let mut names = Names::new(alloc);
    let mut piece = Bytes::new(alloc);
    for c in text {
        if *c == b'/' {
            names.push(piece)?;
            piece = Bytes::new(alloc);
        } else {
            piece.push(*c)?;
        }
    }
    names.push(piece)?;
    Ok(names)
}

/// The last of some components, or no bytes.
pub fn last_of(names: &[Bytes]) -> &[u8]
    ensures { result.now ≡ last_of names.now }
{
    match names {
        [] => &[],
        [.., last] => last.as_slice(),
    }
}

/// All components but the last.
pub fn without_last(names: &[Bytes]) -> &[Bytes]
    ensures { result.now ≡ but_last names.now }
{
    match names {
        [] => &[],
        [front @ .., _] => front,
    }
}
