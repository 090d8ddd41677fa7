ghost use Rattle.std.specs.Prelude.{◌≡◌};
ghost use Rattle.role_steps.specs.Epochs.{boots_where, merge_boot, part_boot};

use epoch_rules::{boot_in, site_at};
use locus_ids::sizes::SITES;
use locus_ids::{Links, Members, SiteId};

fn merge_boot(me: SiteId, links: &Links, site: SiteId) -> u32
    ensures { result ≡ merge_boot me links.now site }
{
    if site == me {
        0
    } else {
        boot_in(&links.boot, site)
    }
}

/// Whom a merge polls: all connected sites but the site itself.
pub fn polled_merge(me: SiteId, links: &Links) -> Links
    ensures { result ≡ boots_where (merge_boot me links.now) }
{
    let mut boot = [0; SITES];
    for place in 0..SITES {
        boot[place] = merge_boot(me, links, site_at(place));
    }
    Links { boot }
}

fn part_boot(me: SiteId, links: &Links, members: &Members, site: SiteId) -> u32
    ensures { result ≡ part_boot me links.now members.now site }
{
    let boot = boot_in(&members.boot, site);
    if site == me || boot_in(&links.boot, site) != boot {
        0
    } else {
        boot
    }
}

/// Whom a part polls: the connected members of the epoch but the site itself.
pub fn polled_part(me: SiteId, links: &Links, members: &Members) -> Links
    ensures { result ≡ boots_where (part_boot me links.now members.now) }
{
    let mut boot = [0; SITES];
    for place in 0..SITES {
        boot[place] = part_boot(me, links, members, site_at(place));
    }
    Links { boot }
}
