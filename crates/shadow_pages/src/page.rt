ghost use Rattle.std.specs.Prelude.{◌≡◌, ◌≤◌, ◌<◌, ◌-◌, ◌++◌, length, take, replicate, IfOk};
ghost use Rattle.locus_ids.specs.Sizes.{page_bytes};

use locus_ids::NoMemory;
use locus_ids::sizes::PAGE_BYTES;
use std::alloc::Global;
use std::marker::Model;

/// A whole page in memory.
#[derive(Drop)]
pub struct Page {
    bytes: Vec<u8>,
}

impl Model for Page {
    ghost use Rattle.std.specs.Prelude.{◌≡◌, List, ℕ, length};
    ghost use Rattle.locus_ids.specs.Sizes.{page_bytes};

    ghost Value = { List ℕ };

    ghost view = { λ p. p.bytes.items };

    ghost invariant = { λ p. length p.bytes.items ≡ page_bytes };
}

impl Page {
    pub fn new(alloc: Global, bytes: &[u8; PAGE_BYTES]) -> Result<Page, NoMemory>
        ensures { IfOk result (λ page. page ≡ bytes.now) }
    {
        let bytes = Vec::from_slice(alloc, bytes)?;
        Ok(Page { bytes })
    }

    pub fn bytes(&self) -> &[u8]
        ensures value { result.now ≡ self.now }
        ensures full { length result.now ≡ page_bytes }
    {
        self.bytes.as_slice()
    }

    /// Makes the bytes from a place on zeros.
    pub fn clear_from(&mut self, from: usize)
        requires { from ≤ page_bytes }
        ensures { self.new ≡ take from self.old ++ replicate (page_bytes - from) 0 }
    {
        self.bytes[from..].fill(0);
    }
}
