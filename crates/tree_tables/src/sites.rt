ghost use Rattle.std.specs.Prelude.{◌≡◌, ◌||◌, not, ◌+◌};
ghost use Rattle.std.specs.List.{find, list_all};
ghost use Rattle.locus_ids.specs.Sites.{has};
ghost use Rattle.tree_model.specs.Packs.{has_pack, is_good_set, is_member, is_member_of, is_place, is_within, least_site, making_site_in, packs_of, sync_site};

use locus_ids::sizes::SITES;
use locus_ids::{Config, Members, Sites};

/// The site is in the set.
pub fn has_site(sites: Sites, site: u8) -> bool
    ensures { result ≡ has sites site }
{
    let place = site.saturating_sub(1);
    if place >= SITES as u8 {
        return false;
    }
    (sites.0 >> place) % 2 == 1
}

/// The sites that have a pack of the group.
pub fn packs_of(config: &Config, group: u8) -> Sites
    ensures { result ≡ packs_of config.now group }
{
    match config.packs.get(usize::from(group)) {
        Some(sites) => *sites,
        None => Sites(0),
    }
}

pub fn has_pack(config: &Config, group: u8, site: u8) -> bool
    ensures { result ≡ has_pack config.now group site }
{
    has_site(packs_of(config, group), site)
}

/// The site is a member of the epoch.
fn is_member(members: &Members, site: u8) -> bool
    ensures { result ≡ is_member members.now site }
{
    if site == 0 {
        return false;
    }
    match members.boot.get(usize::from(site - 1)) {
        Some(boot) => *boot > 0,
        None => false,
    }
}

/// The site is a member of the epoch, and in the set.
fn is_place(members: &Option<Members>, set: Sites, site: u8) -> bool
    ensures { result ≡ is_place members.now set site }
{
    match members {
        Some(members) => is_member(members, site) && has_site(set, site),
        None => false,
    }
}

/// The least member that is in the set.
#[tactic(auto, using(crate::proofs::Counting::next_number, crate::proofs::Counting::no_number))]
fn least_place(members: &Option<Members>, set: Sites) -> Option<u8>
    ensures { result ≡ least_site (is_place members.now set) }
{
    for site in 1..SITES as u8 + 1 {
        if is_place(members, set, site) {
            return Some(site);
        }
    }
    None
}

/// The synchronization site of the group: its least member with a pack.
pub fn sync_site(config: &Config, group: u8, members: &Option<Members>) -> Option<u8>
    ensures { result ≡ sync_site config.now group members.now }
{
    least_place(members, packs_of(config, group))
}

/// The site is in the second set where it is in the first.
fn is_covered(a: Sites, b: Sites, site: u8) -> bool
    ensures { result ≡ (not (has a site) || has b site) }
{
    !has_site(a, site) || has_site(b, site)
}

/// Every site of a set is in the other.
#[tactic(auto, using(crate::proofs::Counting::next_number, crate::proofs::Counting::no_number))]
fn is_within(a: Sites, b: Sites) -> bool
    ensures { result ≡ is_within a b }
{
    for site in 1..SITES as u8 + 1 {
        if !is_covered(a, b, site) {
            return false;
        }
    }
    true
}

/// Every site of the set has a pack of the group, and some member is in it.
pub fn is_good_set(config: &Config, members: &Option<Members>, group: u8, set: Sites) -> bool
    ensures { result ≡ is_good_set config.now group members.now set }
{
    is_within(set, packs_of(config, group)) && least_place(members, set).is_some()
}

/// The storage site of a new file.
pub fn making_site(
    config: &Config,
    group: u8,
    members: &Option<Members>,
    own: u8,
    set: Sites,
) -> Option<u8>
    ensures { result ≡ making_site_in config.now group members.now own set }
{
    if is_place(members, set, own) {
        return Some(own);
    }
    if let Some(site) = sync_site(config, group, members) {
        if is_place(members, set, site) {
            return Some(site);
        }
    }
    least_place(members, set)
}
