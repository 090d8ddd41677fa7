ghost use Rattle.std.specs.Prelude.{◌++◌};
ghost use Rattle.std.specs.Hash as fed;
ghost use Rattle.std.specs.Cmp.Rules.{hashing};
ghost use Rattle.std.proofs.Common.{rules};

use locus_ids::{FileId, Stamp};
use std::hash::{Hash, Hasher};

/// Which page of which version.
#[derive(Clone, Copy, PartialEq, Eq, Drop)]
pub struct PageName {
    pub file: FileId,
    pub stamp: Stamp,
    pub page: u32,
}

impl Hash for PageName {
    ghost hash_input = { λ p. fed.u8 p.file.group ++ (fed.u16 p.file.ino ++ (fed.u8 p.stamp.site ++ (fed.u32 p.stamp.n ++ fed.u32 p.page))) };

    ghost respects_eq = { Prim.search (hashing, rules) };

    fn hash<H: Hasher>(&self, state: &mut H) {
        self.file.group.hash(state);
        self.file.ino.hash(state);
        self.stamp.site.hash(state);
        self.stamp.n.hash(state);
        self.page.hash(state);
    }
}
