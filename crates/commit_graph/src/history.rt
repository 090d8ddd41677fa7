ghost use Rattle.std.specs.Prelude.{◌≡◌, List, [], ◌∷◌, length, reverse, slice_get, ◌==◌, IfOk, OnOk, OnErr};
ghost use Rattle.std.specs.Option.{option_copied};

use locus_ids::{Bytes, FileId, NoMemory, Stamp, Stamps};
use std::alloc::Global;
use std::marker::Model;

/// One committed state of a file.
#[derive(Drop)]
pub struct Version {
    pub file: FileId,
    /// The site that committed it.
    pub site: u8,
    pub stamp: Stamp,
    pub parents: Stamps,
    pub content: Bytes,
}

impl Version {
    pub fn copy(&self) -> Result<Version, NoMemory>
        ensures { IfOk result (λ made. made ≡ self.now) }
    {
        let parents = self.parents.copy()?;
        let content = self.content.copy()?;
        Ok(Version {
            file: self.file,
            site: self.site,
            stamp: self.stamp,
            parents,
            content,
        })
    }
}

/// The versions of all files, the newest first.
#[derive(Drop)]
pub struct History {
    oldest_first: Vec<Version>,
}

impl Model for History {
    ghost use Rattle.std.specs.Prelude.{List, reverse};
    ghost use Rattle.commit_graph.specs.declared.history.Version.{Version};

    ghost Value = { List Version };

    ghost view = { λ h. reverse h.oldest_first.items };
}

impl History {
    pub fn new(alloc: Global) -> History
        ensures { result ≡ [] }
    {
        History {
            oldest_first: Vec::new(alloc),
        }
    }

    pub fn len(&self) -> usize
        ensures { result ≡ length self.now }
    {
        self.oldest_first.len()
    }

    pub fn is_empty(&self) -> bool
        ensures { result ≡ (length self.now == 0) }
    {
        self.oldest_first.is_empty()
    }

    /// The version that was added after `i` others.
    pub fn get(&self, i: usize) -> Option<&Version>
        ensures { option_copied result ≡ slice_get (reverse self.now) i }
    {
        self.oldest_first.get(i)
    }

    /// The versions in the order of adding.
    pub fn oldest_first(&self) -> &[Version]
        ensures { reverse result.now ≡ self.now }
    {
        self.oldest_first.as_slice()
    }

    pub fn copy(&self) -> Result<History, NoMemory>
        ensures { IfOk result (λ made. made ≡ self.now) }
    {
        let mut made = History::new(*self.oldest_first.allocator());
        let versions = self.oldest_first();
        for version in versions {
            made.push(version.copy()?)?;
        }
        Ok(made)
    }

    /// Adds the newest version.
    pub fn push(&mut self, version: Version) -> Result<(), NoMemory>
        ensures ok { OnOk result (self.new ≡ version ∷ self.old) }
        ensures err { OnErr result (self.new ≡ self.old) }
    {
        self.oldest_first.push(version)?;
        Ok(())
    }
}
