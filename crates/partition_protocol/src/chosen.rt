ghost use Rattle.std.specs.Prelude.{◌≡◌, ◌+◌, ℕ, true, Some, slice_get, map};
ghost use Rattle.locus_ids.specs.Sites.{has};
ghost use Rattle.epoch_rules.specs.of_role_steps.Views.{all_sites};
ghost use Rattle.epoch_rules.specs.of_role_steps.Epochs.{candidates, met_by, met_by_all};
ghost use Rattle.partition_protocol.specs.Promising.{promises_from, member_boot_of};

use epoch_rules::{boot_in, site_at};
use locus_ids::sizes::SITES;
use locus_ids::{Links, SiteId, Sites};

/// The initiator and those that promised and reach it.
pub fn candidates(me: SiteId, promises: &[Option<Sites>; SITES]) -> Sites
    ensures { result ≡ candidates me (promises_from 1 promises.now) }
{
    let mut chosen = Sites(0).with(me);
    for place in (0..SITES).rev() {
        if let Some(reach) = promises[place]
            && reach.has(me)
        {
            chosen = chosen.with(site_at(place));
        }
    }
    chosen
}

/// The set is met with what a site reaches, where the site is in it.
fn met_by(set: Sites, site: SiteId, reach: Sites) -> Sites
    ensures { result ≡ met_by set (record { site = site; reach = reach }) }
{
    if set.has(site) { set.meet(reach) } else { set }
}

/// The sites that are left of a set after each site that is still in it has taken away those that it doesn't reach. The
/// promises stand site 1 first. Of the sites that are left, one that promised reaches all.
pub fn fully_connected(set: Sites, promises: &[Option<Sites>; SITES]) -> Sites
    ensures exact { result ≡ met_by_all set (promises_from 1 promises.now) }
    ensures connected { (a b : ℕ) (reach : Sites) → slice_get promises.now a ≡ Some (Some reach) → has result (a + 1) ≡ true → has result b ≡ true → has reach b ≡ true }
{
    let mut left = set;
    for place in 0..SITES {
        if let Some(reach) = promises[place] {
            left = met_by(left, site_at(place), reach);
        }
    }
    left
}

/// The boot number of a site as a member: none where it isn't chosen.
fn member_boot(polled: &Links, me: SiteId, boot: u32, set: Sites, site: SiteId) -> u32
    ensures { result ≡ member_boot_of polled.now me boot set site }
{
    if !set.has(site) {
        0
    } else if site == me {
        boot
    } else {
        boot_in(&polled.boot, site)
    }
}

/// The boot numbers of the chosen sites, site 1 first.
pub fn member_boots(polled: &Links, me: SiteId, boot: u32, set: Sites) -> [u32; SITES]
    ensures { result ≡ map (member_boot_of polled.now me boot set) all_sites }
{
    let mut boots = [0; SITES];
    for place in 0..SITES {
        boots[place] = member_boot(polled, me, boot, set, site_at(place));
    }
    boots
}
