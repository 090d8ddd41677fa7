ghost use Rattle.std.specs.Prelude.{◌≡◌, ◌==◌, ◌||◌, true, not};
ghost use Rattle.std.specs.List.{list_all};
ghost use Rattle.dir_format.specs.Entries.{HasKind};
ghost use Rattle.dir_format.specs.Grammar.{kind_byte};

use crate::encoding::kind_byte;
use dir_format::{Dir, Entry};
use locus_ids::{Ino, Kind};

/// Whether each entry of an inode has this kind.
pub fn has_kind(d: &Dir, ino: Ino, kind: Kind) -> bool
    ensures yes { result ≡ true → HasKind ino kind d.now }
    ensures no { HasKind ino kind d.now → result ≡ true }
{
    all_have(d.as_slice(), ino, kind)
}

fn all_have(entries: &[Entry], ino: Ino, kind: Kind) -> bool
    ensures { result ≡ list_all (λ e. not (e.ino == ino) || (kind_byte e.kind == kind_byte kind)) entries.now }
{
    entries.iter().all(|entry| entry.ino.get() != ino.get()
        || kind_byte(entry.kind) == kind_byte(kind))
}
