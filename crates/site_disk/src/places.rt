// How long the disk of a site is.
ghost use Rattle.std.specs.Prelude.{◌≡◌, ◌≤◌, cond, length};
ghost use Rattle.locus_ids.specs.Sites.{has};
ghost use Rattle.role_steps.specs.Views.{pack_sites};
ghost use Rattle.site_packs.specs.Packs.{groups_at};
ghost use Rattle.site_disk.specs.Image.{disk_length};

use locus_ids::{Config, SiteId};
use pack_layout::disk_len;

/// The disk of a site: 1,024 bytes of its label, and behind them an area for each group that the cluster has it store, by group
/// ascending.
pub struct SiteDisk;

impl SiteDisk {
    /// The number of its bytes.
    pub fn length(config: &Config, site: SiteId) -> u32
        ensures { result ≡ disk_length config.now site }
    {
        disk_len(count_groups(config, site))
    }
}

/// Of how many groups the site has a pack.
fn count_groups(config: &Config, site: SiteId) -> u8
    ensures groups { result ≡ length (groups_at config.now site) }
    ensures few { result ≤ 4 }
{
    let first = count_group(config, site, 0) + count_group(config, site, 1);
    let last = count_group(config, site, 2) + count_group(config, site, 3);
    first + last
}

/// One where the site has a pack of the group, and else none.
fn count_group(config: &Config, site: SiteId, group: u8) -> u8
    requires { group ≤ 3 }
    ensures group { result ≡ cond (has (pack_sites config.now group) site) 1 0 }
    ensures few { result ≤ 1 }
{
    if config.packs[usize::from(group)].has(site) {
        1
    } else {
        0
    }
}
