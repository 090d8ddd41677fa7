ghost use Rattle.std.specs.Prelude.{◌≡◌, ◌<◌, ◌≤◌, ◌++◌, length, insert, IfOk, OnOk, IfSome, IfNone, ◌∷◌, [], List};
ghost use Rattle.std.specs.Cmp.Lexicographic.{slice_cmp};
ghost use Rattle.std.specs.Ordering.{nat_cmp};
ghost use Rattle.trace_book.specs.Names.{plain_name};
ghost use Rattle.call_rules.specs.Opening.{before_name, shown_in, with_mounts, with_name};

use locus_ids::{Bytes, FileId, Mount, Names, NoMemory};
use path_walk::{is_first_root, plain_name};
use std::cmp::Ordering;

/// The names that a directory shows, with those of the mounts where it is the root of group 0, each at its place.
pub(crate) fn shown_in(mounts: &[Mount], dir: FileId, names: &Names) -> Result<Names, NoMemory>
    ensures { IfOk result (λ made. made ≡ shown_in mounts.now dir names.now) }
{
    let mut shown = names.copy()?;
    if is_first_root(dir) {
        add_mounts(mounts, &mut shown)?;
    }
    Ok(shown)
}

/// Adds the names of the mounts, the last one first.
fn add_mounts(mounts: &[Mount], names: &mut Names) -> Result<(), NoMemory>
    ensures { OnOk result (names.new ≡ with_mounts mounts.now names.old) }
{
    let [mount, mounts @ ..] = mounts else {
        return Ok(());
    };
    add_mounts(mounts, names)?;
    add_name(&mount.name, names)
}

/// Adds a name before the first that it stands before.
fn add_name(name: &Bytes, names: &mut Names) -> Result<(), NoMemory>
    ensures { OnOk result (names.new ≡ with_name name.now names.old) }
{
    let place = place_for(name.as_slice(), names.as_slice());
    let name = name.copy()?;
    names.insert(place, name)
}

fn place_for(name: &[u8], names: &[Bytes]) -> usize
    ensures within { result ≤ length names.now }
    ensures place { insert names.now result name.now ≡ with_name name.now names.now }
{
    for i in 0..names.len() {
        if is_before(name, names[i].as_slice()) {
            return i;
        }
    }
    names.len()
}

/// The name stands before the plain name of the other by its bytes.
fn is_before(name: &[u8], other: &[u8]) -> bool
    ensures { result ≡ before_name (slice_cmp nat_cmp name.now (plain_name other.now)) }
{
    match name.cmp(plain_name(other)) {
        Ordering::Less => true,
        Ordering::Equal => false,
        Ordering::Greater => false,
    }
}
