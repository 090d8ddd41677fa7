ghost use Rattle.std.specs.Prelude.{◌≡◌, ℕ, List, [], ◌∷◌, ◌++◌, length, take, slice_get, ◌==◌, IfOk, OnOk, OnErr};
ghost use Rattle.std.specs.Option.{option_copied};

use crate::NoMemory;
use std::alloc::{AllocError, Global};
use std::marker::Model;

/// Some bytes, which contracts see as a list.
#[derive(Drop)]
pub struct Bytes(Vec<u8>);

impl Model for Bytes {
    ghost Value = { List ℕ };

    ghost view = { λ b. b.0.items };
}

impl Bytes {
    /// No bytes. What the list takes later comes from this allocator.
    pub fn new(alloc: Global) -> Bytes
        ensures { result ≡ [] }
    {
        Bytes(Vec::new(alloc))
    }

    /// These bytes, in memory of their own.
    pub fn from_slice(alloc: Global, bytes: &[u8]) -> Result<Bytes, NoMemory>
        ensures { IfOk result (λ made. made ≡ bytes.now) }
    {
        let items = Vec::from_slice(alloc, bytes)?;
        Ok(Bytes(items))
    }

    /// All bytes, the first one first.
    pub fn as_slice(&self) -> &[u8]
        ensures { result.now ≡ self.now }
    {
        self.0.as_slice()
    }

    /// The number of bytes.
    pub fn len(&self) -> usize
        ensures { result ≡ length self.now }
    {
        self.0.len()
    }

    /// There is no byte.
    pub fn is_empty(&self) -> bool
        ensures { result ≡ (length self.now == 0) }
    {
        self.0.is_empty()
    }

    /// The byte at a place, from 0, or `None` exactly where the place is not below the length.
    pub fn get(&self, i: usize) -> Option<&u8>
        ensures { option_copied result ≡ slice_get self.now i }
    {
        self.0.get(i)
    }

    /// Adds a byte at the end. After `NoMemory` the list is as it was.
    pub fn push(&mut self, byte: u8) -> Result<(), NoMemory>
        ensures ok { OnOk result (self.new ≡ self.old ++ byte ∷ []) }
        ensures err { OnErr result (self.new ≡ self.old) }
    {
        self.0.push(byte)?;
        Ok(())
    }

    /// Adds these bytes at the end, all or, after `NoMemory`, none.
    pub fn append(&mut self, bytes: &[u8]) -> Result<(), NoMemory>
        ensures ok { OnOk result (self.new ≡ self.old ++ bytes.now) }
        ensures err { OnErr result (self.new ≡ self.old) }
    {
        self.0.extend_from_slice(bytes)?;
        Ok(())
    }

    /// Keeps so many bytes from the front, and all where there are no more.
    pub fn truncate(&mut self, len: usize)
        ensures { self.new ≡ take len self.old }
    {
        self.0.truncate(len);
    }

    /// Takes all bytes away.
    pub fn clear(&mut self)
        ensures { self.new ≡ [] }
    {
        self.0.clear();
    }

    /// The allocator that the bytes are kept with.
    pub fn allocator(&self) -> Global {
        *self.0.allocator()
    }

    /// An equal list, in memory of its own.
    pub fn copy(&self) -> Result<Bytes, NoMemory>
        ensures { IfOk result (λ made. made ≡ self.now) }
    {
        let items = self.0.clone()?;
        Ok(Bytes(items))
    }
}

impl Clone for Bytes {
    ghost use Rattle.std.specs.Prelude.{◌≡◌};

    ghost is_clone = { λ a b. b ≡ a };

    fn clone(&self) -> Result<Bytes, AllocError> {
        let items = self.0.clone()?;
        Ok(Bytes(items))
    }
}
