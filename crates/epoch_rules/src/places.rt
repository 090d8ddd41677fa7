ghost use Rattle.std.specs.Prelude.{◌≡◌, ◌+◌, ◌<◌, ◌==◌, not};
ghost use Rattle.locus_ids.specs.Sizes.{sites_max};
ghost use Rattle.role_steps.specs.Views.{boot_in};
ghost use Rattle.role_steps.specs.Epochs.{reached};

use locus_ids::sizes::SITES;
use locus_ids::{Links, SiteId, Sites};

/// The site at a place of a list of sixteen, from 0.
pub fn site_at(place: usize) -> SiteId
    requires { place < sites_max }
    ensures { result ≡ place + 1 }
{
    match SiteId::new(place as u8 + 1) {
        Some(site) => site,
        None => unreachable!(),
    }
}

/// The boot number of a site in a list, or 0 for none.
pub fn boot_in(boots: &[u32; SITES], site: SiteId) -> u32
    ensures { result ≡ boot_in boots.now site }
{
    boots[usize::from(site.get()) - 1]
}

/// A boot number stands for the site in the list.
pub fn is_linked(boots: &[u32; SITES], site: SiteId) -> bool
    ensures { result ≡ not (boot_in boots.now site == 0) }
{
    boot_in(boots, site) != 0
}

/// The sites that are connected.
pub fn reached(links: &Links) -> Sites
    ensures { result ≡ reached links.now }
{
    let mut sites = Sites(0);
    for place in (0..SITES).rev() {
        let site = site_at(place);
        if is_linked(&links.boot, site) {
            sites = sites.with(site);
        }
    }
    sites
}
