ghost use Rattle.std.specs.Prelude.{◌≡◌, ◌≤◌, ◌↔◌, IfSome, IsSome};
ghost use Rattle.locus_ids.specs.Sizes.{inodes_max};

use crate::sizes::INODES;
use std::marker::Model;

/// The number of an inode in its filegroup, 1 to `INODES`. Number 1 is the root directory of the group.
#[derive(Clone, Copy, PartialEq, Eq, PartialOrd, Ord)]
pub struct Ino(u16);

impl Model for Ino {
    ghost use Rattle.std.specs.Prelude.{ℕ, ◌≤◌};
    ghost use Rattle.locus_ids.specs.Sizes.{inodes_max};

    ghost Value = { ℕ };

    ghost view = { λ i. i.0 };

    ghost invariant = { λ i. (1 ≤ i.0) × (i.0 ≤ inodes_max) };

    ghost inverse = { λ n. record { 0 = n } };
}

impl Ino {
    /// The root directory of each group.
    pub const fn root() -> Ino
        ensures { result ≡ 1 }
    {
        Ino(1)
    }

    /// The inode of this number, or `None` exactly where the number is not 1 to `INODES`.
    pub fn new(n: u16) -> Option<Ino>
        ensures some { IsSome result ↔ ((1 ≤ n) × (n ≤ inodes_max)) }
        ensures value { IfSome result (λ ino. ino ≡ n) }
    {
        if 1 <= n && n <= INODES {
            Some(Ino(n))
        } else {
            None
        }
    }

    /// The number, 1 to `INODES`.
    pub fn get(self) -> u16
        ensures value { result ≡ self }
        ensures low { 1 ≤ result }
        ensures high { result ≤ inodes_max }
    {
        self.0
    }
}
