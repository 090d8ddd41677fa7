ghost use Rattle.std.specs.Prelude.{◌≡◌, ◌+◌, ◌≤◌, nat_lt, length};
ghost use Rattle.std.specs.List.{AllByRecursion};
ghost use Rattle.locus_ids.specs.Sizes.{directory_bytes_max};
ghost use Rattle.dir_format.specs.Entries.{IsEntry};
ghost use Rattle.dir_format.specs.Grammar.{entry_bytes};
ghost use Rattle.dir_format.specs.Effects.{size_of};

use dir_format::{Entry, is_live};
use locus_ids::sizes::{DIRECTORY_BYTES, SITES};

/// Whether the content of a directory and so many bytes more would pass its greatest size.
pub(crate) fn is_too_long(entries: &[Entry], more: usize) -> bool
    requires entries { AllByRecursion IsEntry entries.now }
    requires few { more ≤ 1000 }
    ensures { result ≡ nat_lt directory_bytes_max (size_of entries.now + more) }
{
    let mut size = more;
    for entry in entries {
        size += entry_size(entry);
        if size > DIRECTORY_BYTES {
            return true;
        }
    }
    false
}

/// The bytes of an entry.
fn entry_size(entry: &Entry) -> usize
    requires { IsEntry entry.now }
    ensures value { result ≡ length (entry_bytes entry.now) }
    ensures few { result ≤ 132 }
{
    let head = entry.name.len() + 8;
    if is_live(entry) {
        head
    } else {
        head + 4 * SITES
    }
}
