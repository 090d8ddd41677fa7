ghost use Rattle.std.specs.Prelude.{◌≡◌, IfOk, length, reverse};
ghost use Rattle.commit_graph.specs.Versions.{content_of, is_version};
ghost use Rattle.file_effects.specs.Works.{begins_owing};
ghost use Rattle.tree_model.specs.Histories.{stamped_content};

use commit_graph::{History, Version};
use locus_ids::{Bytes, FileId, Mode, NoMemory, Stamp};
use std::alloc::Global;

/// The first commit of an instance of this mode is owed from its grant on.
pub(crate) fn begins_owing(mode: Mode) -> bool
    ensures { result ≡ begins_owing mode }
{
    matches!(mode, Mode::Make | Mode::Resolve)
}

/// The content of a version, or no bytes where there is none.
pub fn content_at(
    alloc: Global,
    h: &History,
    file: FileId,
    stamp: Option<Stamp>,
) -> Result<Bytes, NoMemory>
    ensures { IfOk result (λ made. made ≡ stamped_content h.now file stamp) }
{
    match stamp {
        Some(stamp) => Bytes::from_slice(alloc, content_of(h.oldest_first(), file, stamp)),
        None => Ok(Bytes::new(alloc)),
    }
}

/// The content of the newest version of the file with this stamp, or no bytes without one.
fn content_of(versions: &[Version], file: FileId, stamp: Stamp) -> &[u8]
    ensures { result.now ≡ content_of (reverse versions.now) file stamp }
{
    let mut left = versions.len();
    while left > 0 {
        left -= 1;
        let version = &versions[left];
        if is_version(version, file, stamp) {
            return version.content.as_slice();
        }
    }
    &[]
}

fn is_version(version: &Version, file: FileId, stamp: Stamp) -> bool
    ensures { result ≡ is_version file stamp version.now }
{
    version.file == file && version.stamp == stamp
}

/// The size of a version, or 0 where there is none.
pub(crate) fn size_at(h: &History, file: FileId, stamp: Option<Stamp>) -> usize
    ensures { result ≡ length (stamped_content h.now file stamp) }
{
    match stamp {
        Some(stamp) => content_of(h.oldest_first(), file, stamp).len(),
        None => 0,
    }
}
