// Which pulled version is adopted.
ghost use Rattle.std.specs.Prelude.{◌≡◌, ◌<◌, ℕ, List, length, slice_get, Some, IfSome};
ghost use Rattle.std.specs.Option.{option_map};
ghost use Rattle.keyed_tables.specs.Rising.{Rising};
ghost use Rattle.role_steps.specs.Adoption.{has_room, is_ready};
ghost use Rattle.role_steps.specs.Pulling.{pull_key, wanted_pages};
ghost use Rattle.role_steps.specs.declared.pulls.Pull.{Pull};
ghost use Rattle.propagation.specs.Choosing.{without_chosen};
ghost use Rattle.propagation.specs.Sized.{IsSized};
ghost use Rattle.site_packs.specs.Packs.{AreShown};
ghost use Rattle.site_node.specs.Views.{view_of};
ghost use Rattle.site_node.specs.Adopting.{choice_at, fate_of, fits_own_in, ShowsPull};

use crate::SiteNode;
use locus_ids::FileId;
use propagation::{fits_own, is_complete};
use role_steps::Pull;

/// What becomes of a pull.
#[derive(Clone, Copy)]
pub(crate) enum Fate {
    Wait,
    Drop,
    Adopt,
}

/// The file of a pull, and what becomes of the pull.
#[derive(Clone, Copy)]
pub(crate) struct PullSeen {
    pub file: FileId,
    pub fate: Fate,
}

impl SiteNode {
    /// Takes out the pull whose version is adopted: of those that are ready and fit the site's own copy, that of the least group and
    /// inode. A ready one before it that doesn't is dropped.
    pub(crate) fn choose(&mut self) -> Option<Pull>
        ensures chosen { (image : List ℕ) → AreShown self.old.packs.packs image → result ≡ (choice_at (view_of self.old image)).chosen }
        ensures sized { IfSome result (λ pull. IsSized pull) }
        ensures left { (image : List ℕ) → AreShown self.old.packs.packs image → self.new ≡ record self.old { pulls = without_chosen (choice_at (view_of self.old image)) } }
    {
        let mut place = 0;
        while place < self.pulls.len() {
            let seen = self.pull_at(place);
            match seen.fate {
                Fate::Wait => place += 1,
                Fate::Drop => self.pulls.drop_pull(seen.file),
                Fate::Adopt => return self.pulls.take(seen.file),
            }
        }
        None
    }

    /// What becomes of the pull at a place.
    fn pull_at(&self, place: usize) -> PullSeen
        requires { place < length self.now.pulls }
        ensures file { option_map (λ (p : Pull). p.file) (slice_get self.now.pulls place) ≡ Some result.file }
        ensures rising { Rising pull_key self.now.pulls }
        ensures shown { (image : List ℕ) → AreShown self.now.packs.packs image → ShowsPull (view_of self.now image) place result }
    {
        let pull = &self.pulls.as_slice()[place];
        PullSeen {
            file: pull.file,
            fate: self.fate_of(pull),
        }
    }

    fn fate_of(&self, pull: &Pull) -> Fate
        ensures { (image : List ℕ) → AreShown self.now.packs.packs image → result ≡ fate_of (is_ready (view_of self.now image)) (fits_own_in (view_of self.now image)) pull.now }
    {
        if !self.is_ready(pull) {
            Fate::Wait
        } else if self.fits_own(pull) {
            Fate::Adopt
        } else {
            Fate::Drop
        }
    }

    /// All its pages are there and have room, and the file has neither an open instance nor a mend here.
    fn is_ready(&self, pull: &Pull) -> bool
        ensures { (image : List ℕ) → AreShown self.now.packs.packs image → result ≡ is_ready (view_of self.now image) pull.now }
    {
        is_complete(pull)
            && (self.has_room(pull)
                && !(self.store.has_open(pull.file) || self.users.has_mend(pull.file)))
    }

    fn has_room(&self, pull: &Pull) -> bool
        ensures { (image : List ℕ) → AreShown self.now.packs.packs image → result ≡ has_room (view_of self.now image).store pull.now }
    {
        let free = self.store.free_pages(&self.packs, pull.file.group);
        pages_wanted(pull) <= usize::from(free)
    }

    /// The site's own copy is that over which it was pulled, or there is still none, and it is above it.
    fn fits_own(&self, pull: &Pull) -> bool
        ensures { (image : List ℕ) → AreShown self.now.packs.packs image → result ≡ fits_own_in (view_of self.now image) pull.now }
    {
        fits_own(pull, self.head_of(pull.file))
    }
}

/// How many pages are pulled.
fn pages_wanted(pull: &Pull) -> usize
    ensures { result ≡ length (wanted_pages pull.now) }
{
    match &pull.wanted {
        Some(pages) => pages.len(),
        None => 0,
    }
}
