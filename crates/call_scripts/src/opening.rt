ghost use Rattle.std.specs.Prelude.{◌≡◌, ◌∷◌, ℕ, [], List, Some, None, IfOk};
ghost use Rattle.trace_book.specs.declared.reply.Reply.TheVariants as reply;
ghost use Rattle.call_rules.specs.declared.want.Want.TheVariants as want;
ghost use Rattle.call_rules.specs.Mailing.{shown_messages};
ghost use Rattle.call_rules.specs.Opening.{describes, lists, opens_file, shown_in};

use crate::showing::shown_in;
use call_rules::{Answer, Want};
use locus_ids::{Bytes, FileId, Kind, Mount, NoMemory, Refusal};
use mailbox_join::messages;
use std::alloc::Global;
use trace_book::{OpenMode, Reply, What};

/// A walk has led to a file: it is opened, and takes the lowest free descriptor.
pub(crate) fn opens_file(
    mode: OpenMode,
    free: Option<u16>,
    file: FileId,
    kind: Kind,
    answers: &[Answer],
) -> Result<Want, NoMemory>
    ensures { IfOk result (λ w. w ≡ opens_file mode free file kind answers.now) }
{
    if let Kind::Dir = kind {
        return Ok(Want::Give {
            reply: Reply::No {
                why: Refusal::IsDir,
            },
        });
    }
    match answers {
        [] => Ok(Want::Open { file, mode }),
        [Answer::Opened { .. }] => Ok(numbered(free)),
        [Answer::Reading { .. }] => Ok(numbered(free)),
        [Answer::Refused { why }] => {
            let why = why.copy()?;
            Ok(Want::Give {
                reply: Reply::No { why },
            })
        }
        _ => Ok(Want::Never),
    }
}

/// The reply to an open that was granted.
fn numbered(free: Option<u16>) -> Want
    ensures none { free ≡ None → result ≡ want.Never }
    ensures some { (fd : ℕ) → free ≡ Some fd → result ≡ want.Give (reply.Opened fd) }
{
    match free {
        Some(fd) => Want::Give {
            reply: Reply::Opened { fd },
        },
        None => Want::Never,
    }
}

/// A walk has led to a directory: its names are looked at.
pub(crate) fn lists(
    alloc: Global,
    mounts: &[Mount],
    reached: &[u8],
    at: FileId,
    kind: Kind,
    answers: &[Answer],
) -> Result<Want, NoMemory>
    ensures { IfOk result (λ w. w ≡ lists (shown_in mounts.now) reached.now at kind answers.now) }
{
    if let Kind::File = kind {
        let name = Bytes::from_slice(alloc, reached)?;
        return Ok(Want::Give {
            reply: Reply::No {
                why: Refusal::NotDir { name },
            },
        });
    }
    match answers {
        [] => Ok(Want::Look {
            file: at,
            what: What::List,
        }),
        [Answer::Showed { names }] => {
            let names = shown_in(mounts, at, names)?;
            Ok(Want::Give {
                reply: Reply::Names { names },
            })
        }
        [Answer::Refused { why }] => {
            let why = why.copy()?;
            Ok(Want::Give {
                reply: Reply::No { why },
            })
        }
        _ => Ok(Want::Never),
    }
}

/// A walk has led to a box: its names are looked at, of which those of messages are shown.
pub(crate) fn lists_messages(
    alloc: Global,
    reached: &[u8],
    at: FileId,
    kind: Kind,
    answers: &[Answer],
) -> Result<Want, NoMemory>
    ensures { IfOk result (λ w. w ≡ lists shown_messages reached.now at kind answers.now) }
{
    if let Kind::File = kind {
        let name = Bytes::from_slice(alloc, reached)?;
        return Ok(Want::Give {
            reply: Reply::No {
                why: Refusal::NotDir { name },
            },
        });
    }
    match answers {
        [] => Ok(Want::Look {
            file: at,
            what: What::List,
        }),
        [Answer::Showed { names }] => {
            let names = messages(names)?;
            Ok(Want::Give {
                reply: Reply::Names { names },
            })
        }
        [Answer::Refused { why }] => {
            let why = why.copy()?;
            Ok(Want::Give {
                reply: Reply::No { why },
            })
        }
        _ => Ok(Want::Never),
    }
}

/// A walk has led to a file or a directory: it is looked at.
pub(crate) fn describes(file: FileId, kind: Kind, answers: &[Answer]) -> Result<Want, NoMemory>
    ensures { IfOk result (λ w. w ≡ describes file kind answers.now) }
{
    match answers {
        [] => Ok(Want::Look {
            file,
            what: What::Stat,
        }),
        [Answer::Described { kind, size, stamp }] => Ok(Want::Give {
            reply: Reply::Stat {
                kind: *kind,
                file,
                size: *size,
                stamp: *stamp,
            },
        }),
        [Answer::Refused { why }] => {
            let why = why.copy()?;
            Ok(Want::Give {
                reply: Reply::No { why },
            })
        }
        _ => Ok(Want::Never),
    }
}
