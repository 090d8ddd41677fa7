// What is remembered of a copy that was stored.
ghost use Rattle.std.specs.Prelude.{◌≡◌, ℕ, List, true};
ghost use Rattle.file_content.specs.Pages.{pages_of};
ghost use Rattle.role_steps.specs.Adoption.{content_laid};
ghost use Rattle.page_marks.specs.Laying.{ArePagesOf, AreRising};
ghost use Rattle.locus_ids.specs.declared.ids.FileId.{FileId};
ghost use Rattle.site_packs.specs.Live.{is_marked, IsNoted};
ghost use Rattle.site_packs.specs.Packs.{PacksState};

use crate::SitePacks;
use crate::scanning::are_surely_live;
use inode_pack::LaidPages;
use locus_ids::sizes::PAGE_BYTES;
use locus_ids::{FileId, Kind};

impl SitePacks {
    /// Remembers of the new copy of a file whether it is a directory in which no entry is removed. What was remembered of the copy
    /// before is forgotten.
    pub(crate) fn note(&mut self, file: FileId, kind: Kind, content: &[u8])
        ensures same { self.new ≡ record self.old { live = self.new.live } }
        ensures noted { (other : FileId) → is_marked self.new.live other ≡ true → IsNoted self.old.live file content.now other }
    {
        match kind {
            Kind::Dir => self.live.set(file, are_surely_live(content)),
            Kind::File => self.live.set(file, false),
        }
    }

    /// The same of a copy of which some pages came. Only where all of them did is it known what the copy holds.
    pub(crate) fn note_laid(&mut self, file: FileId, kind: Kind, came: &LaidPages<'_>)
        requires pages { AreRising (pages_of came.now.size) came.now.numbers.now }
        requires bytes { ArePagesOf came.now.size came.now.numbers.now came.now.bytes.now }
        ensures same { self.new ≡ record self.old { live = self.new.live } }
        ensures noted { (other : FileId) (own : List ℕ) → is_marked self.new.live other ≡ true → IsNoted self.old.live file (content_laid came.now.size came.now.numbers.now came.now.bytes.now own) other }
    {
        let size = came.size as usize;
        if came.numbers.len() != size.div_ceil(PAGE_BYTES) {
            self.live.set(file, false);
            return;
        }
        self.note(file, kind, &came.bytes[..size]);
    }

    /// The copy of a file is known to have no removed entry. False says nothing: some entry is removed, or nobody has looked since
    /// the packs were mounted.
    pub fn is_known_live(&self, file: FileId) -> bool
        ensures { result ≡ is_marked self.now.live file }
    {
        self.live.has(file)
    }
}
