//! The first entry of a directory that is of some sort.

ghost use Rattle.std.specs.Prelude.{◌≡◌, true, false, None, IfSome};
ghost use Rattle.std.specs.List.{find};
ghost use Rattle.std.specs.Option.{option_copied};
ghost use Rattle.dir_format.specs.Entries.{IsEntry, HasKindOf, is_live, is_pair, pair_in};
ghost use Rattle.dir_format.specs.Effects.{live_one};
ghost use Rattle.dir_format.specs.Lookups.{has_name, is_meant};

use crate::looking::is_meant;
use crate::showing::has_name;
use dir_format::{Dir, Entry, is_live};
use locus_ids::Ino;

/// The first live entry of a name, which has the least inode of them.
pub(crate) fn first_of_name<'a>(entries: &'a [Entry], name: &[u8]) -> Option<&'a Entry>
    ensures { option_copied result ≡ find (has_name name.now) entries.now }
{
    for entry in entries {
        if has_name(entry, name) {
            return Some(entry);
        }
    }
    None
}

/// The first live entry that a component means.
pub(crate) fn first_meant<'a>(entries: &'a [Entry], component: &[u8]) -> Option<&'a Entry>
    ensures { option_copied result ≡ find (is_meant component.now) entries.now }
{
    for entry in entries {
        if is_meant(entry, component) {
            return Some(entry);
        }
    }
    None
}

/// The first live entry.
pub(crate) fn first_live(entries: &[Entry]) -> Option<&Entry>
    ensures { option_copied result ≡ find is_live entries.now }
{
    for entry in entries {
        if is_live(entry) {
            return Some(entry);
        }
    }
    None
}

/// The entry of a pair of name and inode, live or not.
pub(crate) fn pair_in<'a>(entries: &'a [Entry], name: &[u8], ino: Ino) -> Option<&'a Entry>
    ensures { option_copied result ≡ pair_in name.now ino entries.now }
{
    for entry in entries {
        if is_pair(entry, name, ino) {
            return Some(entry);
        }
    }
    None
}

fn is_pair(entry: &Entry, name: &[u8], ino: Ino) -> bool
    ensures { result ≡ is_pair name.now ino entry.now }
{
    entry.name.as_slice() == name && entry.ino.get() == ino.get()
}

/// The live entry of a pair of name and inode.
pub(crate) fn live_pair<'a>(d: &'a Dir, name: &[u8], ino: Ino) -> Option<&'a Entry>
    ensures value { option_copied result ≡ live_one (pair_in name.now ino d.now) }
    ensures entry { IfSome result (λ e. IsEntry e.now) }
    ensures live { IfSome result (λ e. is_live e.now ≡ true) }
    ensures kind { IfSome result (λ e. HasKindOf e.now d.now) }
{
    match pair_in(d.as_slice(), name, ino) {
        Some(entry) if is_live(entry) => Some(entry),
        _ => None,
    }
}

/// The first live entry that a component means.
pub(crate) fn meant<'a>(d: &'a Dir, component: &[u8]) -> Option<&'a Entry>
    ensures value { option_copied result ≡ find (is_meant component.now) d.now }
    ensures entry { IfSome result (λ e. IsEntry e.now) }
    ensures live { IfSome result (λ e. is_live e.now ≡ true) }
    ensures kind { IfSome result (λ e. HasKindOf e.now d.now) }
{
    match first_meant(d.as_slice(), component) {
        Some(entry) => Some(entry),
        None => None,
    }
}

/// The entry of a pair of name and inode, where no entry of the name is live.
pub(crate) fn removed_pair<'a>(d: &'a Dir, name: &[u8], ino: Ino) -> Option<&'a Entry>
    requires { find (has_name name.now) d.now ≡ None }
    ensures value { option_copied result ≡ pair_in name.now ino d.now }
    ensures entry { IfSome result (λ e. IsEntry e.now) }
    ensures removed { IfSome result (λ e. is_live e.now ≡ false) }
{
    match pair_in(d.as_slice(), name, ino) {
        Some(entry) => Some(entry),
        None => None,
    }
}
