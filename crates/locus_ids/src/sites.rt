ghost use Rattle.std.specs.Prelude.{◌≡◌, ℕ, ◌-◌, ◌^◌, ◌≤◌, ◌==◌, ◌&&◌, ◌||◌, not, ◌↔◌, IfSome, IsSome, slice_index};
ghost use Rattle.locus_ids.specs.Sizes.{sites_max};
ghost use Rattle.locus_ids.specs.Sites.{has, with_site, without_site, both, count, IsLeast};

use crate::sizes::SITES;
use std::marker::Model;

/// The number of a site, 1 to `SITES`.
#[derive(Clone, Copy, PartialEq, Eq, PartialOrd, Ord)]
pub struct SiteId(u8);

impl Model for SiteId {
    ghost use Rattle.std.specs.Prelude.{ℕ, ◌≤◌};
    ghost use Rattle.locus_ids.specs.Sizes.{sites_max};

    ghost Value = { ℕ };

    ghost view = { λ s. s.0 };

    ghost invariant = { λ s. (1 ≤ s.0) × (s.0 ≤ sites_max) };

    ghost inverse = { λ n. record { 0 = n } };
}

impl SiteId {
    /// The site of this number, or `None` exactly where the number is not 1 to `SITES`.
    pub fn new(n: u8) -> Option<SiteId>
        ensures some { IsSome result ↔ ((1 ≤ n) × (n ≤ sites_max)) }
        ensures value { IfSome result (λ site. site ≡ n) }
    {
        if 1 <= n && n <= SITES as u8 {
            Some(SiteId(n))
        } else {
            None
        }
    }

    /// The number, 1 to `SITES`.
    pub fn get(self) -> u8
        ensures value { result ≡ self }
        ensures low { 1 ≤ result }
        ensures high { result ≤ sites_max }
    {
        self.0
    }
}

/// A set of sites. Bit s - 1 stands for site s.
#[derive(Clone, Copy, PartialEq, Eq)]
pub struct Sites(pub u16);

/// The bit of a site.
const fn bit(site: SiteId) -> u16
    ensures power { result ≡ 2 ^ (site - 1) }
    ensures low { 1 ≤ site }
    ensures high { site ≤ sites_max }
{
    1 << (site.0 - 1)
}

impl Sites {
    /// This site is in the set.
    pub fn has(self, site: SiteId) -> bool
        ensures { result ≡ has self site }
    {
        self.0 & bit(site) != 0
    }

    /// This set with the site.
    pub fn with(self, site: SiteId) -> Sites
        ensures exact { result ≡ with_site self site }
        ensures members { (other : ℕ) → 1 ≤ other → has result other ≡ (has self other || other == site) }
    {
        Sites(self.0 | bit(site))
    }

    /// This set without the site.
    pub fn without(self, site: SiteId) -> Sites
        ensures exact { result ≡ without_site self site }
        ensures members { (other : ℕ) → 1 ≤ other → has result other ≡ (has self other && not (other == site)) }
    {
        Sites(self.0 & !bit(site))
    }

    /// The sites that both sets have.
    pub fn meet(self, other: Sites) -> Sites
        ensures exact { result ≡ both self other }
        ensures members { (site : ℕ) → has result site ≡ (has self site && has other site) }
    {
        Sites(self.0 & other.0)
    }

    /// The number of sites in the set.
    pub fn count(self) -> u8
        ensures number { result ≡ count self }
        ensures most { result ≤ sites_max }
    {
        let mut n = 0;
        for site in 1..=SITES as u8 {
            if self.has(SiteId(site)) {
                n += 1;
            }
        }
        n
    }

    /// The least site of the set, or `None` exactly where it is empty.
    pub fn least(self) -> Option<SiteId>
        ensures { IsLeast self result }
    {
        for site in 1..=SITES as u8 {
            if self.has(SiteId(site)) {
                return Some(SiteId(site));
            }
        }
        None
    }
}

/// The boot number of each member of an epoch, site 1 first; 0 is no member.
#[derive(Clone, Copy, PartialEq, Eq)]
pub struct Members {
    pub boot: [u32; SITES],
}

impl Members {
    /// The boot number of a site, or 0 where it is no member.
    pub fn boot_of(&self, site: SiteId) -> u32
        ensures { result ≡ slice_index self.now.boot (site - 1) }
    {
        self.boot[usize::from(site.0) - 1]
    }
}

/// The boot number of each site that is connected, site 1 first; 0 is not connected.
#[derive(Clone, Copy, PartialEq, Eq)]
pub struct Links {
    pub boot: [u32; SITES],
}

impl Links {
    /// The boot number of a site, or 0 where it is not connected.
    pub fn boot_of(&self, site: SiteId) -> u32
        ensures { result ≡ slice_index self.now.boot (site - 1) }
    {
        self.boot[usize::from(site.0) - 1]
    }
}
