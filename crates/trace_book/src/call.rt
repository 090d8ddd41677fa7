ghost use Rattle.std.specs.Prelude.{◌≡◌, IfOk};

use locus_ids::{Bytes, FileId, NoMemory, Sites};

/// How a call opens a file.
#[derive(Clone, Copy)]
pub enum OpenMode {
    Read,
    Write,
    /// Settles a conflict, beginning from the version of this site.
    Resolve { site: u8 },
    /// Reads one version, and outlives changes of partition.
    Steady,
}

/// A call of a process. A path is kept as it was written.
#[derive(Clone)]
pub enum Call {
    /// `sites` are those that get a pack's copy; all packs of the group where it is left out.
    Create { path: Bytes, sites: Option<Sites> },
    MakeDir { path: Bytes },
    Unlink { path: Bytes },
    RemoveDir { path: Bytes },
    Rename { path: Bytes, name: Bytes },
    List { path: Bytes },
    Stat { path: Bytes },
    /// A new message of these bytes is put into a box. A box is a directory.
    Mail { path: Bytes, bytes: Bytes },
    /// The messages of a box.
    Mails { path: Bytes },
    Open { path: Bytes, mode: OpenMode },
    Read { fd: u16, at: u32, len: u16 },
    Write { fd: u16, at: u32, bytes: Bytes },
    Cut { fd: u16, len: u32 },
    Commit { fd: u16 },
    Abort { fd: u16 },
    Close { fd: u16 },
    /// The system merges the versions of a directory. No user calls it.
    Mend { file: FileId },
}

// Taken apart in one place: where a call is dropped, the prover sees one call.
impl Drop for Call {
    fn drop(self) {
        match self {
            Call::Create { path: _, sites: _ }
            | Call::MakeDir { path: _ }
            | Call::Unlink { path: _ }
            | Call::RemoveDir { path: _ }
            | Call::Rename { path: _, name: _ }
            | Call::List { path: _ }
            | Call::Stat { path: _ }
            | Call::Mail { path: _, bytes: _ }
            | Call::Mails { path: _ }
            | Call::Open { path: _, mode: _ }
            | Call::Read {
                fd: _,
                at: _,
                len: _,
            }
            | Call::Write {
                fd: _,
                at: _,
                bytes: _,
            }
            | Call::Cut { fd: _, len: _ }
            | Call::Commit { fd: _ }
            | Call::Abort { fd: _ }
            | Call::Close { fd: _ }
            | Call::Mend { file: _ } => {}
        }
    }
}

impl Call {
    /// An equal call.
    pub fn copy(&self) -> Result<Call, NoMemory>
        ensures { IfOk result (λ made. made ≡ self.now) }
    {
        let copy = self.clone()?;
        Ok(copy)
    }
}
