ghost use Rattle.std.specs.Prelude.{◌≡◌};
ghost use Rattle.tree_model.specs.Same.{same_kind};
ghost use Rattle.promises.specs.Same.{same_op, same_what};

use crate::lists::same_bytes;
use locus_ids::Kind;
use trace_book::{Op, What};

pub(crate) fn same_kind(a: Kind, b: Kind) -> bool
    ensures { result ≡ same_kind a b }
{
    match a {
        Kind::File => matches!(b, Kind::File),
        Kind::Dir => matches!(b, Kind::Dir),
    }
}

/// The two operations are the same.
pub fn same_op(a: &Op, b: &Op) -> bool
    ensures { result ≡ same_op a.now b.now }
{
    match a {
        Op::Probe { name } => match b {
            Op::Probe { name: n } => same_bytes(name, n),
            _ => false,
        },
        Op::Find { component } => match b {
            Op::Find { component: n } => same_bytes(component, n),
            _ => false,
        },
        Op::Insert { name, ino, kind } => match b {
            Op::Insert {
                name: n,
                ino: i,
                kind: k,
            } => same_bytes(name, n) && *ino == *i && same_kind(*kind, *k),
            _ => false,
        },
        Op::Remove { name, ino } => match b {
            Op::Remove { name: n, ino: i } => same_bytes(name, n) && *ino == *i,
            _ => false,
        },
        Op::Rename { component, name } => match b {
            Op::Rename {
                component: c,
                name: n,
            } => same_bytes(component, c) && same_bytes(name, n),
            _ => false,
        },
        Op::Empty => matches!(b, Op::Empty),
        Op::Read { at, len } => match b {
            Op::Read { at: a, len: l } => *at == *a && *len == *l,
            _ => false,
        },
        Op::Write { at, bytes } => match b {
            Op::Write { at: a, bytes: bs } => *at == *a && same_bytes(bytes, bs),
            _ => false,
        },
        Op::Cut { len } => match b {
            Op::Cut { len: l } => *len == *l,
            _ => false,
        },
        Op::Commit => matches!(b, Op::Commit),
        Op::Abort => matches!(b, Op::Abort),
        Op::Mend => matches!(b, Op::Mend),
    }
}

/// The two looks ask the same of a file.
pub fn same_what(a: &What, b: &What) -> bool
    ensures { result ≡ same_what a.now b.now }
{
    match a {
        What::Name { component } => match b {
            What::Name { component: c } => same_bytes(component, c),
            _ => false,
        },
        What::List => matches!(b, What::List),
        What::Stat => matches!(b, What::Stat),
        What::Whole { stamp } => match b {
            What::Whole { stamp: s } => stamp.site == s.site && stamp.n == s.n,
            _ => false,
        },
    }
}
