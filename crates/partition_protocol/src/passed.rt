ghost use Rattle.std.specs.Prelude.{◌≡◌, ◌+◌, ◌==◌, ◌↔◌, ◌&&◌, not, IsTrue, [], filter};
ghost use Rattle.epoch_rules.specs.of_role_steps.Views.{all_sites, boot_in};
ghost use Rattle.epoch_rules.specs.of_role_steps.Epochs.{boots_where, left_boot, is_polled, promise_site};
ghost use Rattle.std.specs.List.{list_any};
ghost use Rattle.epoch_rules.specs.of_role_steps.Tables.{with_row};
ghost use Rattle.epoch_rules.specs.of_role_steps.declared.rounds.Promise.{Promise};
ghost use Rattle.partition_protocol.specs.Promising.{promises_from, is_missing};

use epoch_rules::{boot_in, is_linked, site_at};
use locus_ids::sizes::SITES;
use locus_ids::{Links, SiteId, Sites};

/// The boot number that a site was polled with, where it is connected with it still.
fn left_boot(links: &Links, polled: &Links, site: SiteId) -> u32
    ensures { result ≡ left_boot links.now polled.now site }
{
    let boot = boot_in(&polled.boot, site);
    if boot_in(&links.boot, site) == boot {
        boot
    } else {
        0
    }
}

/// The boot numbers of the polled sites that are connected with them still.
pub fn left_boots(links: &Links, polled: &Links) -> Links
    ensures { result ≡ boots_where (left_boot links.now polled.now) }
{
    let mut boot = [0; SITES];
    for place in 0..SITES {
        boot[place] = left_boot(links, polled, site_at(place));
    }
    Links { boot }
}

/// The promises of polled sites.
pub fn kept_promises(promises: &[Option<Sites>; SITES], polled: &Links) -> [Option<Sites>; SITES]
    ensures { promises_from 1 result ≡ filter (is_polled polled.now) (promises_from 1 promises.now) }
{
    let mut kept = *promises;
    for place in 0..SITES {
        if !is_linked(&polled.boot, site_at(place)) {
            kept[place] = None;
        }
    }
    kept
}

/// A promise of the site stands.
pub fn has_promised(promises: &[Option<Sites>; SITES], site: SiteId) -> bool
    ensures { result ≡ list_any (λ (p : Promise). p.site == site) (promises_from 1 promises.now) }
{
    match promises[usize::from(site.get()) - 1] {
        Some(_) => true,
        None => false,
    }
}

/// Puts a promise at the place of its site, over an earlier one.
pub fn put_promise(promises: &mut [Option<Sites>; SITES], site: SiteId, reach: Sites)
    ensures { promises_from 1 promises.new ≡ with_row promise_site (record { site = site; reach = reach }) (promises_from 1 promises.old) }
{
    promises[usize::from(site.get()) - 1] = Some(reach);
}

/// The site is polled and its promise hasn't come.
pub fn is_missing(promises: &[Option<Sites>; SITES], polled: &Links, site: SiteId) -> bool
    ensures { result ≡ is_missing polled.now promises.now site }
{
    is_linked(&polled.boot, site) && !has_promised(promises, site)
}

/// Each polled site has promised.
pub fn has_all(promises: &[Option<Sites>; SITES], polled: &Links) -> bool
    ensures { IsTrue result ↔ filter (is_missing polled.now promises.now) all_sites ≡ [] }
{
    for place in 0..SITES {
        if is_missing(promises, polled, site_at(place)) {
            return false;
        }
    }
    true
}
