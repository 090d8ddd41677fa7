ghost use Rattle.std.specs.Prelude.{◌≡◌, ◌==◌, ◌||◌, true, not};
ghost use Rattle.std.specs.List.{list_all};
ghost use Rattle.dir_format.specs.Grammar.{kind_byte};
ghost use Rattle.dir_reconcile.specs.Joins.{AgreeOnKinds};

use dir_format::locus_ids::{Ino, Kind};
use dir_format::{Dir, Entry};

/// Whether each inode that both directories have has one kind.
pub fn agree_on_kinds(a: &Dir, b: &Dir) -> bool
    ensures yes { result ≡ true → AgreeOnKinds a.now b.now }
    ensures no { AgreeOnKinds a.now b.now → result ≡ true }
{
    all_agree(a.as_slice(), b.as_slice())
}

fn all_agree(xs: &[Entry], ys: &[Entry]) -> bool
    ensures { result ≡ list_all (λ x. list_all (λ e. not (e.ino == x.ino) || (kind_byte e.kind == kind_byte x.kind)) ys.now) xs.now }
{
    xs.iter().all(|x| all_have(ys, x.ino, x.kind))
}

fn all_have(entries: &[Entry], ino: Ino, kind: Kind) -> bool
    ensures { result ≡ list_all (λ e. not (e.ino == ino) || (kind_byte e.kind == kind_byte kind)) entries.now }
{
    entries.iter().all(|entry| entry.ino.get() != ino.get()
        || kind_byte(entry.kind) == kind_byte(kind))
}

/// The byte of a kind.
fn kind_byte(kind: Kind) -> u8
    ensures { result ≡ kind_byte kind }
{
    match kind {
        Kind::File => 1,
        Kind::Dir => 2,
    }
}
