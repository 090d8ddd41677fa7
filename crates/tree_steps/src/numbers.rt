ghost use Rattle.std.specs.Prelude.{◌≡◌, ◌≤◌, ◌+◌, ◌-◌, ◌*◌, filter, length, nat_le};
ghost use Rattle.std.specs.Option.{is_some};
ghost use Rattle.locus_ids.specs.Sizes.{site_inodes};
ghost use Rattle.commit_graph.specs.Vectors.{numbers_from};
ghost use Rattle.tree_model.specs.State.{held_at};
ghost use Rattle.tree_model.specs.Opening.{lacks_numbers, makes_at, making_site, numbers_used};

use crate::TreeTables;
use crate::placing::is_site;
use locus_ids::CallId;
use locus_ids::sizes::SITE_INODES;

impl TreeTables {
    /// The numbers of the storage site of a make, in use or wanted by makes that are underway, are as many as it has at
    /// least.
    pub(crate) fn lacks_numbers(&self, call: CallId) -> bool
        ensures { result ≡ lacks_numbers self.now (making_site self.now call) }
    {
        match self.making_site(call) {
            Some(site) => is_full(self.numbers_used(site), self.makes_at(site)),
            None => false,
        }
    }

    /// How many numbers of its range the site has files of.
    fn numbers_used(&self, site: u8) -> usize
        ensures { result ≡ numbers_used self.now site }
    {
        let first = SITE_INODES * u16::from(site.saturating_sub(1)) + 1;
        self.used_from(site, first, SITE_INODES)
    }

    /// How many of so many numbers from this one on the site has files of.
    #[tactic(auto, using(crate::proofs::Counting::next_after, crate::proofs::Counting::none_after))]
    fn used_from(&self, site: u8, first: u16, count: u16) -> usize
        requires { first + count ≤ 65535 }
        ensures { result ≡ length (filter (λ ino. is_some (held_at self.now site ino)) (numbers_from first count)) }
    {
        let mut used = 0;
        for k in 0..count {
            if self.held_at(site, first + k).is_some() {
                used += 1;
            }
        }
        used
    }

    /// How many makes underway are placed at the site.
    fn makes_at(&self, site: u8) -> usize
        ensures { result ≡ length (makes_at self.now site) }
    {
        let mut wanting = 0;
        for call in self.makes.as_slice() {
            if is_site(self.making_site(*call), site) {
                wanting += 1;
            }
        }
        wanting
    }
}

/// As many as a site has numbers at least.
fn is_full(used: usize, wanting: usize) -> bool
    ensures { result ≡ nat_le site_inodes (used + wanting) }
{
    used >= SITE_INODES as usize
        || wanting >= SITE_INODES as usize
        || used + wanting >= SITE_INODES as usize
}
