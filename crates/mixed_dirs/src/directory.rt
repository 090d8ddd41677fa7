ghost use Rattle.std.specs.Prelude.{◌≡◌, ◌<◌, ◌^◌, [], length, map, IfOk};
ghost use Rattle.dir_format.specs.Contents.{entries_of};
ghost use Rattle.dir_format.specs.Entries.{IsDir};
ghost use Rattle.dir_format.specs.Grammar.{dir_bytes};
ghost use Rattle.dir_reconcile.specs.Joins.{joined_dirs};
ghost use Rattle.dir_reconcile.specs.Rescues.{rescue_wanted, rescued};
ghost use Rattle.mixed_dirs.specs.Mixed.{IsMixed, as_file, with_kinds};

use crate::joining::{copy_of, join, push};
use crate::spelling::spell;
use dir_format::{Dir, Entry};
use dir_operations::dir_in;
use dir_reconcile::{KeptVectors, RescueFault, rescue, rescue_wanted};
use locus_ids::{Bytes, Kind, NoMemory};
use std::alloc::Global;
use std::marker::Model;

/// Entries in the order of a directory, where an inode may have two kinds: what directories are joined to.
#[derive(Drop)]
pub struct MixedDir {
    entries: Vec<Entry>,
}

impl Model for MixedDir {
    ghost use Rattle.std.specs.Prelude.{List};
    ghost use Rattle.dir_format.specs.declared.entry.Entry.{Entry};
    ghost use Rattle.mixed_dirs.specs.Mixed.{IsMixed};

    ghost Value = { List Entry };

    ghost view = { λ d. d.entries.items };

    ghost invariant = { λ d. IsMixed d.entries.items };
}

impl MixedDir {
    /// No entries. What is joined to them comes from this allocator.
    pub fn new(alloc: Global) -> MixedDir
        ensures { result ≡ [] }
    {
        MixedDir {
            entries: Vec::new(alloc),
        }
    }

    /// All entries, in their order.
    pub fn as_slice(&self) -> &[Entry]
        ensures { result.now ≡ self.now }
    {
        self.entries.as_slice()
    }

    /// These entries joined with those of a content.
    pub fn with_content(&self, content: &[u8]) -> Result<MixedDir, NoMemory>
        requires { length content.now < 2 ^ 32 }
        ensures { IfOk result (λ d. d ≡ joined_dirs (entries_of content.now) self.now) }
    {
        let alloc = *self.entries.allocator();
        let d = dir_in(alloc, content)?;
        let entries = join(alloc, d.as_slice(), self.entries.as_slice())?;
        Ok(MixedDir { entries })
    }

    /// Whether some inode wants a rescue.
    #[tactic(auto, using(crate::proofs::AsFiles::wanted_so))]
    pub fn wants_rescue(&self, kept: &KeptVectors) -> Result<bool, NoMemory>
        ensures { IfOk result (λ yes. yes ≡ rescue_wanted self.now kept.now) }
    {
        let files = self.as_files()?;
        Ok(rescue_wanted(&files, kept))
    }

    /// The bytes of the entries after their rescues.
    #[tactic(auto, using(crate::proofs::AsFiles::as_many_so, crate::proofs::AsFiles::bytes_so))]
    pub fn rescued_bytes(&self, kept: &KeptVectors) -> Result<Bytes, NoMemory>
        ensures { IfOk result (λ bytes. bytes ≡ dir_bytes (rescued self.now kept.now)) }
    {
        let alloc = *self.entries.allocator();
        let files = self.as_files()?;
        let files = match rescue(alloc, &files, kept) {
            Ok(files) => files,
            // No entry that is to become live has the greatest count, which a live one has.
            Err(RescueFault::Spent) => return Err(NoMemory),
            Err(RescueFault::NoMemory) => return Err(NoMemory),
        };
        spell(alloc, self.entries.as_slice(), &files)
    }

    /// The directory that they would be if all of them were files.
    fn as_files(&self) -> Result<Dir, NoMemory>
        ensures { IfOk result (λ d. d ≡ map as_file self.now) }
    {
        let entries = as_files(*self.entries.allocator(), self.entries.as_slice())?;
        Ok(Dir::of(entries))
    }
}

/// The same entries as files.
fn as_files(alloc: Global, entries: &[Entry]) -> Result<Vec<Entry>, NoMemory>
    ensures { IfOk result (λ made. made.items ≡ map as_file entries.now) }
{
    let mut made = Vec::new(alloc);
    for entry in entries {
        let file = as_file(entry)?;
        push(&mut made, file)?;
    }
    Ok(made)
}

fn as_file(entry: &Entry) -> Result<Entry, NoMemory>
    ensures { IfOk result (λ e. e ≡ as_file entry.now) }
{
    let mut file = copy_of(entry)?;
    file.kind = Kind::File;
    Ok(file)
}
