// The number of a new inode.
ghost use Rattle.std.specs.Prelude.{◌≡◌, ◌==◌, ◌<◌, ℕ, IfSome, IfNone};
ghost use Rattle.std.specs.List.{list_any};
ghost use Rattle.inode_pack.specs.NextIno.{is_unused, IsNewIno};

use crate::Pack;
use locus_ids::sizes::SITE_INODES;
use locus_ids::{Ino, ItemList};

/// Numbers of inodes.
pub type Inos = ItemList<Ino>;

impl Pack {
    /// The least number that this site may give to a new inode: one of its 64 that is in no slot here and not among those
    /// held. `None` comes exactly where there is none.
    pub fn next_ino(&self, held: &Inos) -> Option<Ino>
        ensures some { IfSome result (λ ino. IsNewIno self.now held.now ino) }
        ensures least { IfSome result (λ ino. (lower : ℕ) → lower < ino → IsNewIno self.now held.now lower → ⊥) }
        ensures none { IfNone result ((ino : ℕ) → IsNewIno self.now held.now ino → ⊥) }
    {
        let first = SITE_INODES * (u16::from(self.site.get()) - 1) + 1;
        for n in first..first + SITE_INODES {
            if self.is_unused(held, n) {
                return Ino::new(n);
            }
        }
        None
    }

    /// A number is in no slot, and not among those held.
    fn is_unused(&self, held: &Inos, n: u16) -> bool
        ensures { result ≡ is_unused self.now held.now n }
    {
        if self.copy(n).is_some() {
            return false;
        }
        !is_held(held.as_slice(), n)
    }
}

/// A number is one of these.
fn is_held(held: &[Ino], n: u16) -> bool
    ensures { result ≡ list_any (λ ino. ino == n) held.now }
{
    for ino in held {
        if ino.get() == n {
            return true;
        }
    }
    false
}
