// Packs that stand have no gate to close.
ghost use Rattle.std.specs.Prelude.{◌≡◌, ℕ, List, []};
ghost use Rattle.site_packs.specs.Packs.{AreShown, groups_of};
ghost use Rattle.site_packs.specs.Cutting.{both_open_on};

use crate::SitePacks;

impl SitePacks {
    /// Of no file both gates are open where these packs stand. This call does nothing: it tells so.
    pub fn gates_are_shut(&self)
        ensures { (image : List ℕ) → AreShown self.now.packs image → both_open_on (groups_of self.now) image ≡ [] }
    {
        let _invariant = &self.site;
    }
}
