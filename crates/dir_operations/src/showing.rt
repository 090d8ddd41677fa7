ghost use Rattle.std.specs.Prelude.{◌≡◌, ◌++◌, map, filter, IfOk};
ghost use Rattle.dir_format.specs.Lookups.{has_name, is_shared, numbered_name, shown_name, shown_names};
ghost use Rattle.dir_format.specs.Entries.{is_live};

use dir_format::{Dir, Entry, is_live};
use locus_ids::{Bytes, Names, NoMemory};
use std::alloc::Global;

/// The names that a directory shows, in the order of its entries.
pub fn shown_names(alloc: Global, d: &Dir) -> Result<Names, NoMemory>
    ensures { IfOk result (λ names. names ≡ shown_names d.now) }
{
    let entries = d.as_slice();
    let mut names = Names::new(alloc);
    for entry in entries {
        if is_live(entry) {
            let shared = is_shared(entries, entry.name.as_slice());
            let name = shown_name(alloc, entry, shared)?;
            names.push(name)?;
        }
    }
    Ok(names)
}

/// How a live entry is shown, where several of its name are live or not.
pub(crate) fn shown_name(alloc: Global, entry: &Entry, shared: bool) -> Result<Bytes, NoMemory>
    ensures { IfOk result (λ name. name ≡ shown_name entry.now shared) }
{
    if shared {
        return numbered_name(alloc, entry);
    }
    Bytes::from_slice(alloc, entry.name.as_slice())
}

fn numbered_name(alloc: Global, entry: &Entry) -> Result<Bytes, NoMemory>
    ensures { IfOk result (λ name. name ≡ numbered_name entry.now) }
{
    let mut shown = Bytes::from_slice(alloc, entry.name.as_slice())?;
    shown.append(b"@")?;
    let digits = entry.ino.get().to_string(alloc)?;
    shown.append(digits.as_bytes())?;
    Ok(shown)
}

/// Whether several live entries have this name.
pub(crate) fn is_shared(entries: &[Entry], name: &[u8]) -> bool
    ensures { result ≡ is_shared entries.now name.now }
{
    let mut one = false;
    for entry in entries {
        if has_name(entry, name) {
            if one {
                return true;
            }
            one = true;
        }
    }
    false
}

/// Whether an entry is live and has this name.
pub(crate) fn has_name(entry: &Entry, name: &[u8]) -> bool
    ensures { result ≡ has_name name.now entry.now }
{
    is_live(entry) && entry.name.as_slice() == name
}
