ghost use Rattle.std.specs.Prelude.{◌≡◌, IfOk, map, filter};
ghost use Rattle.role_steps.specs.of_commit_graph.Versions.{same_stamp};
ghost use Rattle.role_steps.specs.Versions.{chosen_site, is_among, holding_site};
ghost use Rattle.role_steps.specs.declared.synchronizing.Holding.{Holding};

use locus_ids::{NoMemory, SiteId, Stamp};
use role_steps::Holding;
use std::alloc::Global;

/// The site is one of these.
pub fn is_among(site: SiteId, sites: &[SiteId]) -> bool
    ensures { result ≡ is_among site sites.now }
{
    sites.iter().any(|s| s.get() == site.get())
}

/// Who serves a using site: itself where it is one of the holders, else the synchronization site where it is, else the first
/// holder, which is the lowest-numbered.
pub fn choose(us: SiteId, css: SiteId, holders: &[SiteId]) -> Option<SiteId>
    ensures { result ≡ chosen_site us css holders.now }
{
    if is_among(us, holders) {
        Some(us)
    } else if is_among(css, holders) {
        Some(css)
    } else {
        match holders {
            [] => None,
            [first, ..] => Some(*first),
        }
    }
}

/// The sites that hold the version, in the order of the holdings.
pub fn holders_among(
    alloc: Global,
    holdings: &[Holding],
    stamp: Stamp,
) -> Result<Vec<SiteId>, NoMemory>
    ensures { IfOk result (λ made. made.items ≡ map holding_site (filter (λ (h : Holding). same_stamp h.stamp stamp) holdings.now)) }
{
    let mut made = Vec::new(alloc);
    for holding in holdings {
        if holding.stamp == stamp {
            made.push(holding.site)?;
        }
    }
    Ok(made)
}

/// The site holds the version.
pub fn is_holder(holdings: &[Holding], site: SiteId, stamp: Stamp) -> bool
    ensures { result ≡ is_among site (map holding_site (filter (λ (h : Holding). same_stamp h.stamp stamp) holdings.now)) }
{
    for holding in holdings {
        if holding.stamp == stamp && holding.site.get() == site.get() {
            return true;
        }
    }
    false
}
