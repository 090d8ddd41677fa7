// The number of a new inode.
ghost use Rattle.std.specs.Prelude.{◌≡◌, ◌+◌, ◌-◌, ◌*◌, ℕ, List};
ghost use Rattle.locus_ids.specs.Sizes.{site_inodes};
ghost use Rattle.role_steps.specs.Views.{Store};
ghost use Rattle.role_steps.specs.Storage.{own_ino};
ghost use Rattle.site_packs.specs.Copies.{copies_on};
ghost use Rattle.site_packs.specs.Packs.{AreShown, AreMaking, groups_of, is_taken, free_ino};

use crate::SitePacks;
use locus_ids::FileId;
use locus_ids::sizes::SITE_INODES;

impl SitePacks {
    /// The least of the site's 64 numbers of a group that is in no slot here and not among those that open instances make.
    /// `None` comes exactly where there is none.
    pub fn next_ino(&self, group: u8, making: &[u16]) -> Option<u16>
        ensures { (s : Store) (image : List ℕ) → AreShown self.now.packs image → s.copies ≡ copies_on (groups_of self.now) image → AreMaking group making.now s → result ≡ own_ino s group self.now.site }
    {
        let _site = self.site.get();
        self.least_free(group, making)
    }

    /// The least number of the site that isn't taken.
    fn least_free(&self, group: u8, making: &[u16]) -> Option<u16>
        ensures { result ≡ free_ino self.now.packs group making.now (site_inodes * (self.now.site - 1) + 1) site_inodes }
    {
        let first = SITE_INODES * (u16::from(self.site.get()) - 1) + 1;
        for ino in first..first + SITE_INODES {
            if !self.is_taken(group, making, ino) {
                return Some(ino);
            }
        }
        None
    }

    /// A number is in a slot of the group's pack, or among those that are made.
    fn is_taken(&self, group: u8, making: &[u16], ino: u16) -> bool
        ensures { result ≡ is_taken self.now.packs group making.now ino }
    {
        match self.slot_of(FileId { group, ino }) {
            Some(_) => true,
            None => making.contains(&ino),
        }
    }
}
