ghost use Rattle.std.specs.Prelude.{◌≡◌};
ghost use Rattle.pack_layout.specs.Layout.{other_half};

/// One of the two slots of an inode.
#[derive(Clone, Copy, PartialEq, Eq)]
pub enum Half {
    First,
    Second,
}

impl Half {
    /// The inode's other slot.
    pub fn other(self) -> Half
        ensures { result ≡ other_half self }
    {
        match self {
            Half::First => Half::Second,
            Half::Second => Half::First,
        }
    }
}
