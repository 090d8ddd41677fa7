ghost use Rattle.std.specs.Prelude.{◌≡◌, ◌≤◌, ◌+◌, ◌++◌, length, replicate, take, drop, IfOk, OnOk};
ghost use Rattle.locus_ids.specs.Sizes.{content_bytes_max};
ghost use Rattle.file_content.specs.Contents.{cut, written};

use locus_ids::NoMemory;
use locus_ids::sizes::PAGE_BYTES;
use std::alloc::Global;
use std::marker::Model;

/// The working content of an open file, which is changed in place. It may be as long as one on a disk; what a call gives is no
/// longer than its rule allows. Contracts see its bytes.
#[derive(Drop)]
pub struct WorkingContent(Vec<u8>);

impl Model for WorkingContent {
    ghost use Rattle.std.specs.Prelude.{ℕ, List, length, ◌≤◌};
    ghost use Rattle.locus_ids.specs.Sizes.{content_bytes_max};

    ghost Value = { List ℕ };

    ghost view = { λ c. c.0.items };

    ghost invariant = { λ c. length c.0.items ≤ content_bytes_max };
}

impl WorkingContent {
    /// These bytes, in memory of their own.
    pub fn from_slice(alloc: Global, bytes: &[u8]) -> Result<WorkingContent, NoMemory>
        requires { length bytes.now ≤ content_bytes_max }
        ensures { IfOk result (λ made. made ≡ bytes.now) }
    {
        let items = Vec::from_slice(alloc, bytes)?;
        Ok(WorkingContent(items))
    }

    /// All bytes, the first one first.
    pub fn as_slice(&self) -> &[u8]
        ensures value { result.now ≡ self.now }
        ensures few { length self.now ≤ content_bytes_max }
    {
        self.0.as_slice()
    }

    /// The number of bytes.
    pub fn len(&self) -> usize
        ensures value { result ≡ length self.now }
        ensures few { result ≤ content_bytes_max }
    {
        self.0.len()
    }

    /// Puts these bytes from a place on. A gap before them is filled with zeros.
    #[tactic(auto, using(crate::proofs::Writing::within, crate::proofs::Writing::over_end, crate::proofs::Writing::past))]
    pub fn write(&mut self, at: u32, bytes: &[u8]) -> Result<(), NoMemory>
        requires { at + length bytes.now ≤ content_bytes_max }
        ensures { OnOk result (self.new ≡ written self.old at bytes.now) }
    {
        let at = at as usize;
        let end = at + bytes.len();
        let size = self.0.len();
        if end <= size {
            overwrite(self.0.as_mut_slice(), at, bytes);
            return Ok(());
        }
        if at <= size {
            self.0.truncate(at);
        } else {
            push_zeros(&mut self.0, at - size)?;
        }
        append(&mut self.0, bytes)
    }

    /// Keeps so many bytes from the front, and all where there are no more.
    pub fn cut(&mut self, len: u32)
        ensures { self.new ≡ cut self.old len }
    {
        self.0.truncate(len as usize);
    }

    /// Puts these bytes in the place of all.
    pub fn replace(&mut self, bytes: &[u8]) -> Result<(), NoMemory>
        requires { length bytes.now ≤ content_bytes_max }
        ensures { OnOk result (self.new ≡ bytes.now) }
    {
        self.0.clear();
        append(&mut self.0, bytes)
    }
}

/// Overwrites bytes from a place on.
fn overwrite(content: &mut [u8], at: usize, bytes: &[u8])
    requires { at + length bytes.now ≤ length content.old }
    ensures { content.new ≡ take at content.old ++ bytes.now ++ drop (at + length bytes.now) content.old }
{
    let end = at + bytes.len();
    content[at..end].copy_from_slice(bytes);
}

fn append(items: &mut Vec<u8>, bytes: &[u8]) -> Result<(), NoMemory>
    ensures ok { OnOk result (items.new.items ≡ items.old.items ++ bytes.now) }
    ensures few { length items.new.items ≤ length items.old.items + length bytes.now }
{
    items.extend_from_slice(bytes)?;
    Ok(())
}

#[tactic(auto, using(crate::proofs::Zeros::zeros_more, crate::proofs::Zeros::zeros_last))]
fn push_zeros(items: &mut Vec<u8>, count: usize) -> Result<(), NoMemory>
    ensures ok { OnOk result (items.new.items ≡ items.old.items ++ replicate count 0) }
    ensures few { length items.new.items ≤ length items.old.items + count }
{
    let zeros = [0; PAGE_BYTES];
    let mut left = count;
    while left > PAGE_BYTES {
        append(items, &zeros)?;
        left -= PAGE_BYTES;
    }
    append(items, &zeros[..left])
}
