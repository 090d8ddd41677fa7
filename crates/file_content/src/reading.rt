ghost use Rattle.std.specs.Prelude.{◌≡◌, IfOk};
ghost use Rattle.file_content.specs.Contents.{part};

use locus_ids::{Bytes, NoMemory};
use std::alloc::Global;

/// At most so many bytes of a content from a place on, and none where it has none there.
pub fn part_of(content: &[u8], at: u32, len: u16) -> &[u8]
    ensures { result.now ≡ part content.now at len }
{
    part_from(content, at as usize, usize::from(len))
}

/// At most so many bytes of a content from a place on, and none where it has none there.
pub(crate) fn part_from(content: &[u8], at: usize, len: usize) -> &[u8]
    ensures { result.now ≡ part content.now at len }
{
    let Some(rest) = content.get(at..) else {
        return &[];
    };
    let len = len.min(rest.len());
    &rest[..len]
}

/// The same bytes, in memory of their own.
pub fn part(alloc: Global, content: &[u8], at: u32, len: u16) -> Result<Bytes, NoMemory>
    ensures { IfOk result (λ made. made ≡ part content.now at len) }
{
    Bytes::from_slice(alloc, part_of(content, at, len))
}
