ghost use Rattle.std.specs.Prelude.{◌≡◌, IfOk};

use crate::{Bytes, ItemList, NoMemory, Sites};

/// A filegroup that stands on a reserved name of the root directory.
#[derive(Clone, Drop)]
pub struct Mount {
    pub group: u8,
    pub name: Bytes,
}

/// The mounts of a cluster.
pub type Mounts = ItemList<Mount>;

/// A cluster: how many sites it has, which of them have a pack of each group, and where groups are mounted.
#[derive(Clone, Drop)]
pub struct Config {
    pub sites: u8,
    pub packs: [Sites; 4],
    pub mounts: Mounts,
}

impl Config {
    /// An equal cluster.
    pub fn copy(&self) -> Result<Config, NoMemory>
        ensures { IfOk result (λ made. made ≡ self.now) }
    {
        let mounts = self.mounts.copy()?;
        Ok(Config {
            sites: self.sites,
            packs: self.packs,
            mounts,
        })
    }
}
