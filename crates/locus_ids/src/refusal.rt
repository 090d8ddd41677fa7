ghost use Rattle.std.specs.Prelude.{◌≡◌, IfOk};

use crate::{Bytes, EpochId, NoMemory, Stamp};

/// Why a call is refused.
#[derive(Clone)]
pub enum Refusal {
    /// An open instance of this process of this site excludes the open.
    Busy { site: u8, process: u8 },
    /// The directory has no live entry of this name.
    Absent { name: Bytes },
    /// A directory is needed, and this name is a file.
    NotDir { name: Bytes },
    /// A file is needed, and the name is a directory.
    IsDir,
    /// The new name has a live entry already, with this inode number.
    Exists { ino: u16 },
    /// The directory to remove still has this name.
    NotEmpty { name: Bytes },
    /// The file has versions beside each other, of which these two stamps are the least.
    Conflict { a: Stamp, b: Stamp },
    /// The name has several live entries, of which these two inode numbers are the least.
    Ambiguous { a: u16, b: u16 },
    /// No site that can be reached stores what is asked for.
    NoStorage,
    /// The site is in no epoch.
    NoPartition,
    /// The site left this epoch while the call was waiting.
    Changed { epoch: EpochId },
    /// The process has no such descriptor open.
    BadDescriptor,
    /// The descriptor was opened in this epoch, which the site has left.
    Stale { epoch: EpochId },
    /// A file or directory would pass its greatest size.
    TooLong,
    /// So many pages are needed, and only so many are free.
    NoSpace { needed: u16, free: u16 },
    /// The storage site has given all its inode numbers of the group.
    NoInode,
    /// The path or the new name is not allowed.
    BadName,
    /// The descriptor was opened for reading alone.
    ReadOnly,
    /// All descriptors of the process are open.
    NoDescriptor,
    /// A counter that must rise has its greatest value.
    Spent,
    /// The file to resolve has no conflict.
    NoConflict,
}

// Taken apart in one place: where a refusal is dropped, the prover sees one call, and not one for each name that it may hold.
impl Drop for Refusal {
    fn drop(self) {
        match self {
            Refusal::Busy {
                site: _,
                process: _,
            }
            | Refusal::Absent { name: _ }
            | Refusal::NotDir { name: _ }
            | Refusal::IsDir
            | Refusal::Exists { ino: _ }
            | Refusal::NotEmpty { name: _ }
            | Refusal::Conflict { a: _, b: _ }
            | Refusal::Ambiguous { a: _, b: _ }
            | Refusal::NoStorage
            | Refusal::NoPartition
            | Refusal::Changed { epoch: _ }
            | Refusal::BadDescriptor
            | Refusal::Stale { epoch: _ }
            | Refusal::TooLong
            | Refusal::NoSpace { needed: _, free: _ }
            | Refusal::NoInode
            | Refusal::BadName
            | Refusal::ReadOnly
            | Refusal::NoDescriptor
            | Refusal::Spent
            | Refusal::NoConflict => {}
        }
    }
}

impl Refusal {
    /// An equal refusal.
    pub fn copy(&self) -> Result<Refusal, NoMemory>
        ensures { IfOk result (λ made. made ≡ self.now) }
    {
        let copy = self.clone()?;
        Ok(copy)
    }
}
