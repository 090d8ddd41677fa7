ghost use Rattle.std.specs.Prelude.{◌≡◌, ◌<◌, ◌^◌, ◌==◌, ℕ, List, [], ◌++◌, ◌∷◌, length, reverse, IfOk, OnOk, Ok, Err, ◌+◌};
ghost use Rattle.locus_ids.specs.Sizes.{inodes_max};
ghost use Rattle.field_codec.specs.Reads.{Gives};
ghost use Rattle.dir_format.specs.declared.entry.Entry.{Entry};
ghost use Rattle.dir_format.specs.Grammar.{IsDirectory, read_entries, entries_alone, read_dir};
ghost use Rattle.dir_format.specs.Contents.{entries_of};
ghost use Rattle.dir_operations.specs.Decoded.{Decoded};
ghost use Rattle.dir_operations.specs.Kinds.{KnowsKinds};

use crate::encoding::kind_byte;
use crate::reading::read_entry;
use dir_format::{Dir, Entry};
use field_codec::{FieldFault, Fields, ReadError};
use locus_ids::NoMemory;
use locus_ids::sizes::INODES;
use std::alloc::Global;
use thiserror::Error;

/// Why there is no directory.
#[derive(Clone, Copy, Debug, PartialEq, Eq, Error)]
pub enum BadDir {
    /// The bytes are no directory's; the first field from the left that is short or out of range begins here.
    #[error("no directory at {at}")]
    At { at: u32 },
    #[error("no memory")]
    NoMemory,
}

/// The directory whose content these bytes are.
pub fn decode_dir(alloc: Global, bytes: &[u8]) -> Result<Dir, BadDir>
    requires { length bytes.now < 2 ^ 32 }
    // What is read is spelled so.
    ensures found { IfOk result (λ d. IsDirectory bytes.now d) }
    // Bytes that are a directory's are read, unless memory runs out.
    ensures only { (ds : List Entry) → IsDirectory bytes.now ds → Decoded (Ok ds) result }
    // Which field is at fault.
    ensures exact { Decoded (read_dir bytes.now) result }
{
    match read_dir(alloc, bytes) {
        Ok(entries) => Ok(Dir::of(entries)),
        Err(ReadError::Field(FieldFault::Short { at })) => Err(BadDir::At { at }),
        Err(ReadError::Field(FieldFault::Range { at })) => Err(BadDir::At { at }),
        Err(ReadError::NoMemory) => Err(BadDir::NoMemory),
    }
}

/// The directory that some content has: that of these bytes where they are a directory's, else one without entries.
pub fn dir_in(alloc: Global, bytes: &[u8]) -> Result<Dir, NoMemory>
    requires { length bytes.now < 2 ^ 32 }
    ensures { IfOk result (λ d. d ≡ entries_of bytes.now) }
{
    match decode_dir(alloc, bytes) {
        Ok(d) => Ok(d),
        Err(BadDir::At { at: _ }) => Ok(Dir::new(alloc)),
        Err(BadDir::NoMemory) => Err(NoMemory),
    }
}

fn read_dir(alloc: Global, bytes: &[u8]) -> Result<Vec<Entry>, ReadError>
    requires { length bytes.now < 2 ^ 32 }
    ensures { Gives (λ ds. ds.items) result (read_dir bytes.now) }
{
    let mut fields = Fields::new(bytes);
    read_entries(alloc, &mut fields, bytes.len())
}

fn read_entries(alloc: Global, fields: &mut Fields, most: usize) -> Result<Vec<Entry>, ReadError>
    ensures { Gives (λ ds. ds.items) result (entries_alone (read_entries most [] fields.old)) }
{
    let mut entries = Vec::new(alloc);
    let mut kinds = no_kinds();
    for _ in 0..most {
        if fields.left() == 0 {
            return Ok(entries);
        }
        let entry = read_entry(alloc, fields, entries.as_slice(), &kinds)?;
        kinds[usize::from(entry.ino.get())] = kind_byte(entry.kind);
        push(&mut entries, entry)?;
    }
    Ok(entries)
}

/// The table in which no inode has a kind.
fn no_kinds() -> [u8; INODES as usize + 1]
    ensures known { KnowsKinds result [] }
    ensures inodes { length result ≡ inodes_max + 1 }
{
    [0; INODES as usize + 1]
}

fn push(entries: &mut Vec<Entry>, entry: Entry) -> Result<(), NoMemory>
    ensures { OnOk result (entries.new.items ≡ entries.old.items ++ entry ∷ []) }
{
    entries.push(entry)?;
    Ok(())
}
