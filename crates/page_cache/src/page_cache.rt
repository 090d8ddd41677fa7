ghost use Rattle.std.specs.Prelude.{◌≡◌, [], IfOk, OnOk, OnErr};
ghost use Rattle.std.specs.Option.{option_map};
ghost use Rattle.lru.specs.LruCache.{lru_cache};
ghost use Rattle.page_cache.specs.Cached.{brought_first, cached_pages_max, found, with_page};

use crate::page_name::PageName;
use locus_ids::NoMemory;
use locus_ids::sizes::PAGE_BYTES;
use lru::LruCache;
use std::alloc::Global;
use std::marker::Model;
use std::num::NonZeroUsize;

/// How many pages a site keeps.
pub const CACHED_PAGES: usize = 256;

/// The pages that a site keeps, the one that was used last first. Each has as many bytes as a page: zeros follow the end of its version.
/// The list is made with the first page.
#[derive(Drop)]
pub struct PageCache {
    pages: Option<LruCache<PageName, [u8; PAGE_BYTES]>>,
    alloc: Global,
}

impl Model for PageCache {
    ghost use Rattle.page_cache.specs.Cached.{CachedPages};
    ghost use Rattle.page_cache.specs.Kept.{HasRoom, kept_in};

    ghost Value = { CachedPages };

    ghost view = { λ c. kept_in c.pages };

    ghost invariant = { λ c. HasRoom c.pages };
}

impl PageCache {
    /// No pages. What they take later comes from this allocator.
    pub fn new(alloc: Global) -> PageCache
        ensures { result ≡ [] }
    {
        PageCache { pages: None, alloc }
    }

    /// The bytes of a page, where it is kept; the order stays.
    pub fn peek(&self, name: &PageName) -> Option<&[u8; PAGE_BYTES]>
        ensures { option_map (λ bytes. bytes.now) result ≡ found name.now self.now }
    {
        match &self.pages {
            Some(pages) => pages.peek(name),
            None => None,
        }
    }

    /// The bytes of a page, where it is kept: it comes to the front, and the others keep their order.
    #[tactic(auto, using(crate::proofs::Names::used_by))]
    pub fn get(&mut self, name: &PageName) -> Option<[u8; PAGE_BYTES]>
        ensures bytes { result ≡ found name.now self.old }
        ensures pages { self.new ≡ brought_first name.now self.old }
    {
        let Some(mut pages) = self.pages.take() else {
            return None;
        };
        let kept = pages.get(name).copied();
        self.pages = Some(pages);
        kept
    }

    /// Keeps a page, which comes to the front. The others keep their order; where there are as many as may be and the page
    /// is a new one, the last one goes.
    pub fn put(&mut self, name: PageName, bytes: [u8; PAGE_BYTES]) -> Result<(), NoMemory>
        ensures ok { OnOk result (self.new ≡ with_page name bytes self.old) }
        ensures err { OnErr result (self.new ≡ self.old) }
    {
        let mut pages = self.take_list()?;
        let Ok(_) = pages.put(name, bytes) else {
            self.pages = Some(pages);
            return Err(NoMemory);
        };
        self.pages = Some(pages);
        Ok(())
    }

    /// The list, taken out.
    #[tactic(auto, using(crate::proofs::Names::list_is))]
    fn take_list(&mut self) -> Result<LruCache<PageName, [u8; PAGE_BYTES]>, NoMemory>
        ensures ok { IfOk result (λ list. list ≡ lru_cache self.old cached_pages_max) }
        ensures err { OnErr result (self.new ≡ self.old) }
    {
        let Some(list) = self.pages.take() else {
            return empty_list(self.alloc);
        };
        Ok(list)
    }
}

/// A list of no pages, with room for as many as a site keeps.
fn empty_list(alloc: Global) -> Result<LruCache<PageName, [u8; PAGE_BYTES]>, NoMemory>
    ensures { IfOk result (λ list. list ≡ lru_cache [] cached_pages_max) }
{
    let Some(most) = NonZeroUsize::new(CACHED_PAGES) else {
        return Err(NoMemory);
    };
    let list = LruCache::sparse(alloc, most)?;
    Ok(list)
}
