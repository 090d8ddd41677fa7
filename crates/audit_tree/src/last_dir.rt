ghost use Rattle.std.specs.Prelude.{◌≡◌, ◌≤◌, [], length, OnOk};
ghost use Rattle.locus_ids.specs.Sizes.{file_bytes_max};
ghost use Rattle.dir_format.specs.Contents.{entries_of};

use dir_format::Dir;
use dir_operations::dir_in;
use locus_ids::{Bytes, NoMemory};
use std::alloc::Global;
use std::marker::Model;

/// The directory that was read last, with its content: one that is looked at again and again is read once. Contracts see the content.
#[derive(Drop)]
pub struct LastDir {
    content: Bytes,
    dir: Dir,
}

impl Model for LastDir {
    ghost use Rattle.std.specs.Prelude.{◌≡◌, ℕ, List};

    ghost Value = { List ℕ };

    ghost use Rattle.dir_format.specs.Contents.{entries_of};

    ghost view = { λ d. d.content };

    ghost invariant = { λ d. d.dir ≡ entries_of d.content };
}

impl LastDir {
    /// The directory of no bytes. What is read later is kept with this allocator.
    pub fn new(alloc: Global) -> LastDir
        ensures { result ≡ [] }
    {
        LastDir {
            content: Bytes::new(alloc),
            dir: Dir::new(alloc),
        }
    }

    pub(crate) fn allocator(&self) -> Global {
        self.content.allocator()
    }

    /// Reads the directory of this content, where it isn't the last one.
    pub(crate) fn read(&mut self, content: &[u8]) -> Result<(), NoMemory>
        requires { length content.now ≤ file_bytes_max }
        ensures { OnOk result (self.new ≡ content.now) }
    {
        if self.content.as_slice() == content {
            return Ok(());
        }
        let alloc = self.allocator();
        let dir = dir_in(alloc, content)?;
        let content = Bytes::from_slice(alloc, content)?;
        *self = LastDir { content, dir };
        Ok(())
    }

    pub(crate) fn dir(&self) -> &Dir
        ensures { result.now ≡ entries_of self.now }
    {
        &self.dir
    }
}
