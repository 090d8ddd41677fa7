ghost use Rattle.std.specs.Prelude.{◌≡◌};
ghost use Rattle.std.specs.Str.{bytes_eq};
ghost use Rattle.tree_model.specs.Same.{same_all, same_brought, same_kind, same_outcome, same_refusal, same_served, same_version};

use locus_ids::{Brought, Bytes, Kind, Refusal, Stamp};
use trace_book::{Outcome, Served};

fn same_bytes(a: &Bytes, b: &Bytes) -> bool
    ensures { result ≡ bytes_eq a.now b.now }
{
    a.as_slice() == b.as_slice()
}

fn same_kind(a: Kind, b: Kind) -> bool
    ensures { result ≡ same_kind a b }
{
    match a {
        Kind::File => match b {
            Kind::File => true,
            Kind::Dir => false,
        },
        Kind::Dir => match b {
            Kind::File => false,
            Kind::Dir => true,
        },
    }
}

/// The two refusals are the same.
pub fn same_refusal(a: &Refusal, b: &Refusal) -> bool
    ensures { result ≡ same_refusal a.now b.now }
{
    match a {
        Refusal::Busy { site, process } => match b {
            Refusal::Busy {
                site: s,
                process: p,
            } => *site == *s && *process == *p,
            _ => false,
        },
        Refusal::Absent { name } => match b {
            Refusal::Absent { name: n } => same_bytes(name, n),
            _ => false,
        },
        Refusal::NotDir { name } => match b {
            Refusal::NotDir { name: n } => same_bytes(name, n),
            _ => false,
        },
        Refusal::IsDir => match b {
            Refusal::IsDir => true,
            _ => false,
        },
        Refusal::Exists { ino } => match b {
            Refusal::Exists { ino: i } => *ino == *i,
            _ => false,
        },
        Refusal::NotEmpty { name } => match b {
            Refusal::NotEmpty { name: n } => same_bytes(name, n),
            _ => false,
        },
        Refusal::Conflict { a: x, b: y } => match b {
            Refusal::Conflict { a: c, b: d } => *x == *c && *y == *d,
            _ => false,
        },
        Refusal::Ambiguous { a: x, b: y } => match b {
            Refusal::Ambiguous { a: c, b: d } => *x == *c && *y == *d,
            _ => false,
        },
        Refusal::NoStorage => match b {
            Refusal::NoStorage => true,
            _ => false,
        },
        Refusal::NoPartition => match b {
            Refusal::NoPartition => true,
            _ => false,
        },
        Refusal::Changed { epoch } => match b {
            Refusal::Changed { epoch: e } => *epoch == *e,
            _ => false,
        },
        Refusal::BadDescriptor => match b {
            Refusal::BadDescriptor => true,
            _ => false,
        },
        Refusal::Stale { epoch } => match b {
            Refusal::Stale { epoch: e } => *epoch == *e,
            _ => false,
        },
        Refusal::TooLong => match b {
            Refusal::TooLong => true,
            _ => false,
        },
        Refusal::NoSpace { needed, free } => match b {
            Refusal::NoSpace { needed: n, free: f } => *needed == *n && *free == *f,
            _ => false,
        },
        Refusal::NoInode => match b {
            Refusal::NoInode => true,
            _ => false,
        },
        Refusal::BadName => match b {
            Refusal::BadName => true,
            _ => false,
        },
        Refusal::ReadOnly => match b {
            Refusal::ReadOnly => true,
            _ => false,
        },
        Refusal::NoDescriptor => match b {
            Refusal::NoDescriptor => true,
            _ => false,
        },
        Refusal::Spent => match b {
            Refusal::Spent => true,
            _ => false,
        },
        Refusal::NoConflict => match b {
            Refusal::NoConflict => true,
            _ => false,
        },
    }
}

/// The two outcomes are the same.
pub fn same_outcome(a: &Outcome, b: &Outcome) -> bool
    ensures { result ≡ same_outcome a.now b.now }
{
    match a {
        Outcome::Done => match b {
            Outcome::Done => true,
            _ => false,
        },
        Outcome::Found { ino, kind } => match b {
            Outcome::Found { ino: i, kind: k } => *ino == *i && same_kind(*kind, *k),
            _ => false,
        },
        Outcome::Data { bytes } => match b {
            Outcome::Data { bytes: bs } => same_bytes(bytes, bs),
            _ => false,
        },
        Outcome::Committed { stamp } => match b {
            Outcome::Committed { stamp: s } => *stamp == *s,
            _ => false,
        },
        Outcome::No { why } => match b {
            Outcome::No { why: w } => same_refusal(why, w),
            _ => false,
        },
    }
}

/// The two answers to a look are the same.
pub fn same_served(a: &Served, b: &Served) -> bool
    ensures { result ≡ same_served a.now b.now }
{
    match a {
        Served::At { stamp } => match b {
            Served::At { stamp: s } => *stamp == *s,
            Served::No { why: _ } => false,
        },
        Served::No { why } => match b {
            Served::At { stamp: _ } => false,
            Served::No { why: w } => same_refusal(why, w),
        },
    }
}

/// The two versions are the same, or there is neither.
pub fn same_version(a: Option<Stamp>, b: Option<Stamp>) -> bool
    ensures { result ≡ same_version a b }
{
    match a {
        None => b.is_none(),
        Some(a) => match b {
            Some(b) => a == b,
            None => false,
        },
    }
}

/// The two lists of brought versions are the same, one by one.
pub fn same_all(a: &[Brought], b: &[Brought]) -> bool
    ensures { result ≡ same_all a.now b.now }
{
    if a.len() != b.len() {
        return false;
    }
    for i in 0..a.len() {
        if !same_brought(a[i], b[i]) {
            return false;
        }
    }
    true
}

fn same_brought(a: Brought, b: Brought) -> bool
    ensures { result ≡ same_brought a b }
{
    a.ino == b.ino && a.stamp == b.stamp
}
