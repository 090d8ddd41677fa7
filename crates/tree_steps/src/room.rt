ghost use Rattle.std.specs.Prelude.{◌≡◌, ◌-◌, ◌==◌, filter, length, sum_by};
ghost use Rattle.tree_model.specs.Working.{changed_pages, free_pages, held_pages, pages_of_copy};
ghost use Rattle.tree_model.specs.declared.instance.Instance.{Instance};

use crate::TreeTables;
use crate::working::size_at;
use commit_graph::History;
use file_content::pages_of;
use locus_ids::FileId;
use locus_ids::sizes::PACK_PAGES;
use tree_model::{HeldCopy, Instance};

impl TreeTables {
    /// The pages that are free for the group at the site.
    #[tactic(auto, using(crate::proofs::Rooms::less_both))]
    pub fn free_pages(&self, h: &History, site: u8) -> usize
        ensures { result ≡ free_pages h.now self.now site }
    {
        let left = self.less_held(h, site, PACK_PAGES as usize);
        less_changed(self.instances.as_slice(), site, left)
    }

    /// These pages, less those of the files that the site has.
    #[tactic(auto, using(crate::proofs::Rooms::less_held_one))]
    fn less_held(&self, h: &History, site: u8, pages: usize) -> usize
        ensures { result ≡ pages - held_pages h.now self.now site }
    {
        let mut left = pages;
        for copy in self.copies.as_slice() {
            if copy.site == site {
                left = left.saturating_sub(self.pages_of_copy(h, *copy));
            }
        }
        left
    }

    /// The pages of the version that a site has in the epoch.
    fn pages_of_copy(&self, h: &History, copy: HeldCopy) -> usize
        ensures { result ≡ pages_of_copy h.now self.now.group copy }
    {
        let file = FileId {
            group: self.group,
            ino: copy.ino,
        };
        pages_of(size_at(h, file, copy.held))
    }
}

/// These pages, less the changed ones of the instances there.
#[tactic(auto, using(crate::proofs::Rooms::less_changed_one))]
fn less_changed(instances: &[Instance], site: u8, pages: usize) -> usize
    ensures { result ≡ pages - sum_by (λ (x : Instance). length x.work.changed) (filter (λ (x : Instance). x.grant.ss == site) instances.now) }
{
    let mut left = pages;
    for instance in instances {
        if instance.grant.ss == site {
            left = left.saturating_sub(instance.work.changed.len());
        }
    }
    left
}
