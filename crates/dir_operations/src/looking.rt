ghost use Rattle.std.specs.Prelude.{◌≡◌, ◌||◌, ◌++◌, ◌∷◌, codes, if◌then◌else◌};
ghost use Rattle.std.specs.Fmt.{decimal};
ghost use Rattle.std.specs.Str.{bytes_eq};
ghost use Rattle.dir_format.specs.Lookups.{is_meant, lookup, with_meant};

use dir_format::{Dir, Entry, LookResult, is_live};
use locus_ids::{Ino, Kind};

/// The live entry that a component means: by its name, or by its name followed by `@` and its inode.
pub fn lookup(d: &Dir, component: &[u8]) -> LookResult
    ensures { result ≡ lookup d.now component.now }
{
    let mut so_far = LookResult::Absent;
    for entry in d.as_slice() {
        so_far = and_maybe(so_far, entry, component);
    }
    so_far
}

/// What is found with one more entry.
fn and_maybe(so_far: LookResult, entry: &Entry, component: &[u8]) -> LookResult
    ensures { result ≡ (if is_meant component.now entry.now then with_meant so_far entry.now else so_far) }
{
    if is_meant(entry, component) {
        and_meant(so_far, entry)
    } else {
        so_far
    }
}

/// What is found with one more entry that is meant.
fn and_meant(so_far: LookResult, entry: &Entry) -> LookResult
    ensures { result ≡ with_meant so_far entry.now }
{
    match so_far {
        LookResult::Absent => LookResult::Found {
            ino: entry.ino,
            kind: entry.kind,
        },
        LookResult::Found { ino, kind: _ } => LookResult::Ambiguous {
            a: ino,
            b: entry.ino,
        },
        LookResult::Ambiguous { a, b } => LookResult::Ambiguous { a, b },
    }
}

/// Whether a component means a live entry.
pub(crate) fn is_meant(entry: &Entry, component: &[u8]) -> bool
    ensures { result ≡ is_meant component.now entry.now }
{
    let name = entry.name.as_slice();
    is_live(entry) && (name == component || is_numbered(name, entry.ino.get(), component))
}

/// The component is this name with `@` and this inode.
fn is_numbered(name: &[u8], ino: u16, component: &[u8]) -> bool
    ensures { result ≡ bytes_eq (name.now ++ codes "@" ++ decimal ino) component.now }
{
    let Some(rest) = component.strip_prefix(name) else {
        return false;
    };
    let Some((mark, digits)) = rest.split_first() else {
        return false;
    };
    *mark == b'@' && is_decimal(digits, ino)
}

/// These are the digits of the number, with no zero before them.
fn is_decimal(digits: &[u8], number: u16) -> bool
    ensures { result ≡ bytes_eq (decimal number) digits.now }
{
    let Some((last, front)) = digits.split_last() else {
        return false;
    };
    if *last != b'0' + (number % 10) as u8 {
        return false;
    }
    if number < 10 {
        front.is_empty()
    } else {
        is_decimal(front, number / 10)
    }
}
