ghost use Rattle.std.specs.Prelude.{◌≡◌, IfOk, OnOk};
ghost use Rattle.page_cache.specs.Parts.{held_part, looked_up, with_part, with_whole};

use crate::page_cache::PageCache;
use crate::part::Part;
use locus_ids::{Bytes, NoMemory};
use std::alloc::Global;

impl PageCache {
    /// The bytes of a part, where all its pages are kept; nothing where one isn't, or where the part has no bytes. The pages are looked
    /// up in ascending order up to the first that isn't kept, and each that is found comes to the front.
    pub fn held(&mut self, alloc: Global, part: &Part) -> Result<Option<Bytes>, NoMemory>
        ensures bytes { IfOk result (λ bytes. bytes ≡ held_part part.now self.old) }
        ensures pages { OnOk result (self.new ≡ looked_up part.now self.old) }
    {
        let count = part.length();
        if count == 0 {
            return Ok(None);
        }
        let (first, end) = part.pages(count);
        let mut bytes = Bytes::new(alloc);
        for page in first..end {
            match self.get(&part.name(page)) {
                Some(kept) => bytes.append(part.within(page, &kept))?,
                None => return Ok(None),
            }
        }
        Ok(Some(bytes))
    }

    /// Keeps each page that these bytes, which begin at the place of the part, bring whole. The pages come to the front in ascending order.
    #[tactic(auto, using(crate::proofs::Looking::put_next, crate::proofs::Looking::put_all, crate::proofs::Looking::part_is))]
    pub fn keep(&mut self, part: &Part, bytes: &[u8]) -> Result<(), NoMemory>
        ensures { OnOk result (self.new ≡ with_part part.now bytes.now self.old) }
    {
        if bytes.len() >= 4_294_967_296 {
            return Err(NoMemory);
        }
        let (first, end) = part.pages(bytes.len() as u32);
        for page in first..end {
            self.keep_page(part, bytes, page)?;
        }
        Ok(())
    }

    /// Keeps a page, where these bytes bring it whole.
    #[tactic(auto, using(crate::proofs::Looking::is_put, crate::proofs::Looking::is_not_put))]
    fn keep_page(&mut self, part: &Part, bytes: &[u8], page: u32) -> Result<(), NoMemory>
        ensures { OnOk result (self.new ≡ with_whole part.now bytes.now page self.old) }
    {
        if !part.is_whole(bytes, page) {
            return Ok(());
        }
        self.put(part.name(page), part.page_among(bytes, page))?;
        Ok(())
    }
}
