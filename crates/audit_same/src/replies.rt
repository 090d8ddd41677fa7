ghost use Rattle.std.specs.Prelude.{◌≡◌};
ghost use Rattle.promises.specs.Same.{same_reply};

use crate::lists::{same_bytes, same_names};
use crate::operations::same_kind;
use trace_book::Reply;
use tree_tables::{same_refusal, same_version};

/// The two replies are the same.
pub fn same_reply(a: &Reply, b: &Reply) -> bool
    ensures { result ≡ same_reply a.now b.now }
{
    match a {
        Reply::Made { ino } => match b {
            Reply::Made { ino: i } => *ino == *i,
            _ => false,
        },
        Reply::Done => matches!(b, Reply::Done),
        Reply::Names { names } => match b {
            Reply::Names { names: ns } => same_names(names.as_slice(), ns.as_slice()),
            _ => false,
        },
        Reply::Stat {
            kind,
            file,
            size,
            stamp,
        } => match b {
            Reply::Stat {
                kind: k,
                file: f,
                size: s,
                stamp: t,
            } => same_kind(*kind, *k) && *file == *f && *size == *s && *stamp == *t,
            _ => false,
        },
        Reply::Opened { fd } => match b {
            Reply::Opened { fd: n } => *fd == *n,
            _ => false,
        },
        Reply::Data { bytes } => match b {
            Reply::Data { bytes: bs } => same_bytes(bytes, bs),
            _ => false,
        },
        Reply::Committed { stamp } => match b {
            Reply::Committed { stamp: s } => *stamp == *s,
            _ => false,
        },
        Reply::Closed { stamp } => match b {
            Reply::Closed { stamp: s } => same_version(*stamp, *s),
            _ => false,
        },
        Reply::No { why } => match b {
            Reply::No { why: w } => same_refusal(why, w),
            _ => false,
        },
    }
}
