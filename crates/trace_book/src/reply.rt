ghost use Rattle.std.specs.Prelude.{◌≡◌, IfOk};

use locus_ids::{Bytes, FileId, Kind, Names, NoMemory, Refusal, Stamp};

/// What a call is answered.
#[derive(Clone)]
pub enum Reply {
    /// A file or directory was made.
    Made {
        ino: u16,
    },
    /// An unlink, rmdir, rename, write, cut or abort is done.
    Done,
    /// The shown names of a directory.
    Names {
        names: Names,
    },
    /// Size in bytes.
    Stat {
        kind: Kind,
        file: FileId,
        size: u32,
        stamp: Stamp,
    },
    Opened {
        fd: u16,
    },
    Data {
        bytes: Bytes,
    },
    /// A commit: the version's stamp, also where nothing had changed.
    Committed {
        stamp: Stamp,
    },
    /// A close, with the version that it made.
    Closed {
        stamp: Option<Stamp>,
    },
    No {
        why: Refusal,
    },
}

// Taken apart in one place: where a reply is dropped, the prover sees one call.
impl Drop for Reply {
    fn drop(self) {
        match self {
            Reply::Made { ino: _ }
            | Reply::Done
            | Reply::Names { names: _ }
            | Reply::Stat {
                kind: _,
                file: _,
                size: _,
                stamp: _,
            }
            | Reply::Opened { fd: _ }
            | Reply::Data { bytes: _ }
            | Reply::Committed { stamp: _ }
            | Reply::Closed { stamp: _ }
            | Reply::No { why: _ } => {}
        }
    }
}

impl Reply {
    /// An equal reply.
    pub fn copy(&self) -> Result<Reply, NoMemory>
        ensures { IfOk result (λ made. made ≡ self.now) }
    {
        let copy = self.clone()?;
        Ok(copy)
    }
}
