ghost use Rattle.std.specs.Prelude.{◌≡◌, ℕ, IfOk};
ghost use Rattle.schedule_lines.specs.Cluster.{config_of};
ghost use Rattle.the_run.specs.Commands.{opening_lines};

use locus_ids::{Bytes, Config, Mount, Mounts, NoMemory, Sites};
use std::alloc::Global;

/// The opening begins with so many header lines.
pub const HEADER_LINES: u32 = 4;

/// The cluster that the header lines of the opening make: three sites, a group on all of them, and one on two that is
/// mounted on `usr`.
pub fn load_cluster(alloc: Global) -> Result<Config, NoMemory>
    ensures { IfOk result (λ c. (budget : ℕ) → c ≡ config_of (opening_lines budget)) }
{
    let mut mounts = Mounts::new(alloc);
    mounts.push(Mount {
        group: 1,
        name: Bytes::from_slice(alloc, b"usr")?,
    })?;
    Ok(Config {
        sites: 3,
        packs: [Sites(7), Sites(6), Sites(0), Sites(0)],
        mounts,
    })
}
