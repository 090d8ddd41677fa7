ghost use Rattle.std.specs.Prelude.{◌≡◌};
ghost use Rattle.std.specs.Str.{bytes_eq};
ghost use Rattle.commit_graph.specs.Versions.{same_stamp};
ghost use Rattle.promises.specs.Same.{same_list};

use locus_ids::{Bytes, Stamp};

/// The two texts are the same.
pub fn same_bytes(a: &Bytes, b: &Bytes) -> bool
    ensures { result ≡ bytes_eq a.now b.now }
{
    a.as_slice() == b.as_slice()
}

fn same_stamp(a: Stamp, b: Stamp) -> bool
    ensures { result ≡ same_stamp a b }
{
    a.site == b.site && a.n == b.n
}

/// The two lists of stamps are the same, one by one.
pub fn same_stamps(a: &[Stamp], b: &[Stamp]) -> bool
    ensures { result ≡ same_list same_stamp a.now b.now }
{
    if a.len() != b.len() {
        return false;
    }
    for i in 0..a.len() {
        if !same_stamp(a[i], b[i]) {
            return false;
        }
    }
    true
}

/// The two lists of names are the same, one by one.
pub fn same_names(a: &[Bytes], b: &[Bytes]) -> bool
    ensures { result ≡ same_list bytes_eq a.now b.now }
{
    if a.len() != b.len() {
        return false;
    }
    for i in 0..a.len() {
        if !same_bytes(&a[i], &b[i]) {
            return false;
        }
    }
    true
}
