ghost use Rattle.std.specs.Prelude.{◌≡◌, ◌<◌, ◌+◌, ◌&&◌, not, [], ◌∷◌, filter, IfOk, OnOk};
ghost use Rattle.std.specs.List.{list_any};
ghost use Rattle.std.specs.Option.{option_copied};
ghost use Rattle.locus_ids.specs.Sizes.{sites_max};
ghost use Rattle.locus_ids.specs.Sites.{has};
ghost use Rattle.role_steps.specs.Mends.{is_dir};
ghost use Rattle.role_steps.specs.Views.{is_member};
ghost use Rattle.role_steps.specs.Versions.{is_among, unknown_file, with_version, with_holder, version_of, holding_of, holders_of, noted, rises_to};
ghost use Rattle.role_steps.specs.Reports.{version_reported};
ghost use Rattle.css_versions.specs.Known.{held_if, version_made};
ghost use Rattle.css_versions.specs.Lists.{is_lacked, lags};

use crate::holders::{holders_among, is_holder};
use crate::kept::{keep, rises};
use keyed_tables::{Keyed, find, find_first, put, put_first, stamp_key};
use locus_ids::sizes::SITES;
use locus_ids::{Kind, Members, NoMemory, SiteId, Sites, Stamp};
use role_steps::{Holding, VersionRow};
use std::alloc::Global;
use std::marker::Model;
use wire_messages::{MadeVersion, ReportedCopy};

/// What is known of a file of the group.
pub struct KnownFile {
    ino: u16,
    kind: Kind,
    set: Sites,
    versions: Vec<VersionRow>,
    kept: Vec<VersionRow>,
    holders: Vec<Holding>,
}

// Taken apart in one place: where a file is dropped, the prover sees one call.
impl Drop for KnownFile {
    fn drop(self) {
        let KnownFile {
            ino: _,
            kind: _,
            set: _,
            versions: _,
            kept: _,
            holders: _,
        } = self;
    }
}

impl Model for KnownFile {
    ghost use Rattle.role_steps.specs.declared.synchronizing.FileRow.{FileRow};
    ghost use Rattle.role_steps.specs.Versions.{version_key};
    ghost use Rattle.keyed_tables.specs.Rising.{Rising};

    ghost Value = { FileRow };

    ghost view = { λ f. record { ino = f.ino; kind = f.kind; set = f.set; versions = f.versions.items; kept = f.kept.items; holders = f.holders.items } };

    ghost invariant = { λ f. Rising version_key f.versions.items };
}

impl Keyed for KnownFile {
    ghost use Rattle.role_steps.specs.Versions.{row_ino};

    ghost key = { row_ino };

    fn key(&self) -> u64 {
        u64::from(self.ino)
    }
}

impl KnownFile {
    /// A file of which no version is known.
    pub fn new(alloc: Global, ino: u16, kind: Kind, set: Sites) -> KnownFile
        ensures { result ≡ unknown_file ino kind set }
    {
        KnownFile {
            ino,
            kind,
            set,
            versions: Vec::new(alloc),
            kept: Vec::new(alloc),
            holders: Vec::new(alloc),
        }
    }

    pub fn ino(&self) -> u16
        ensures { result ≡ self.now.ino }
    {
        self.ino
    }

    pub fn kind(&self) -> Kind
        ensures { result ≡ self.now.kind }
    {
        self.kind
    }

    pub fn is_directory(&self) -> bool
        ensures { result ≡ is_dir self.now.kind }
    {
        match self.kind {
            Kind::Dir => true,
            Kind::File => false,
        }
    }

    /// The sites that store the file.
    pub fn set(&self) -> Sites
        ensures { result ≡ self.now.set }
    {
        self.set
    }

    /// All versions that were brought or published, ascending by stamp.
    pub fn versions(&self) -> &[VersionRow]
        ensures { result.now ≡ self.now.versions }
    {
        self.versions.as_slice()
    }

    /// The versions whose vector is below that of no other, ascending by stamp.
    pub fn kept(&self) -> &[VersionRow]
        ensures { result.now ≡ self.now.kept }
    {
        self.kept.as_slice()
    }

    /// The version of a stamp.
    pub fn version(&self, stamp: Stamp) -> Option<&VersionRow>
        ensures { option_copied result ≡ version_of self.now stamp }
    {
        find(self.versions.as_slice(), stamp_key(stamp))
    }

    /// What a site is known to hold.
    pub fn holding(&self, site: u8) -> Option<&Holding>
        ensures { option_copied result ≡ holding_of self.now site }
    {
        find_first(self.holders.as_slice(), u64::from(site))
    }

    /// The members that hold the version, ascending.
    pub fn holders(&self, stamp: Stamp) -> Result<Vec<SiteId>, NoMemory>
        ensures { IfOk result (λ made. made.items ≡ holders_of self.now stamp) }
    {
        holders_among(*self.holders.allocator(), self.holders.as_slice(), stamp)
    }

    /// A member of the file's set doesn't hold its only kept version.
    pub fn lags(&self, members: &Members) -> bool
        ensures { result ≡ lags members.now self.now }
    {
        match self.kept.as_slice() {
            [version] => self.is_lacked(members, version.stamp),
            _ => false,
        }
    }

    /// A member of the file's set doesn't hold this version.
    fn is_lacked(&self, members: &Members, stamp: Stamp) -> bool
        ensures { result ≡ is_lacked members.now self.now stamp }
    {
        for place in 0..SITES as u8 {
            if self.is_lacked_at(members, stamp, place) {
                return true;
            }
        }
        false
    }

    /// The site at a place of all sites, from 0, is a member of the file's set and doesn't hold this version.
    fn is_lacked_at(&self, members: &Members, stamp: Stamp, place: u8) -> bool
        requires { place < sites_max }
        ensures { result ≡ list_any (λ s. not (is_among s (holders_of self.now stamp))) (filter (λ s. has self.now.set s && is_member members.now s) ((place + 1) ∷ [])) }
    {
        let Some(site) = SiteId::new(place + 1) else {
            return false;
        };
        self.set.has(site)
            && is_member(members, site)
            && !is_holder(self.holders.as_slice(), site, stamp)
    }

    /// A member's pack reports a copy of this file.
    pub fn report(&mut self, from: SiteId, copy: &ReportedCopy) -> Result<(), NoMemory>
        ensures known { OnOk result (self.new ≡ with_holder from copy.now.stamp (with_version (version_reported copy.now) self.old)) }
        ensures ino { self.new.ino ≡ self.old.ino }
    {
        let version = VersionRow {
            stamp: copy.stamp,
            vector: copy.vector,
            size: copy.size,
        };
        self.know(&version)?;
        self.hold(from, copy.stamp)
    }

    /// A storage site has made a version of this file.
    pub fn publish(&mut self, ss: SiteId, made: &MadeVersion) -> Result<(), NoMemory>
        ensures known { OnOk result (self.new ≡ noted ss made.now.stamp (with_version (version_made made.now) self.old)) }
        ensures ino { self.new.ino ≡ self.old.ino }
    {
        let version = VersionRow {
            stamp: made.stamp,
            vector: made.vector,
            size: made.size,
        };
        self.know(&version)?;
        self.note(ss, made.stamp)
    }

    /// A version becomes known.
    fn know(&mut self, version: &VersionRow) -> Result<(), NoMemory>
        ensures known { OnOk result (self.new ≡ with_version version.now self.old) }
        ensures ino { self.new.ino ≡ self.old.ino }
    {
        put(&mut self.versions, *version)?;
        keep(&mut self.kept, version)
    }

    /// The site holds the version.
    fn hold(&mut self, site: SiteId, stamp: Stamp) -> Result<(), NoMemory>
        ensures held { OnOk result (self.new ≡ with_holder site stamp self.old) }
        ensures ino { self.new.ino ≡ self.old.ino }
    {
        put_first(&mut self.holders, Holding { site, stamp })
    }

    /// A site tells which version it holds. What is known only rises, and a stamp that isn't known changes nothing.
    pub fn note(&mut self, site: SiteId, stamp: Stamp) -> Result<(), NoMemory>
        ensures noted { OnOk result (self.new ≡ noted site stamp self.old) }
        ensures ino { self.new.ino ≡ self.old.ino }
    {
        match self.newly_held(site, stamp) {
            Some(held) => self.hold(site, held),
            None => Ok(()),
        }
    }

    /// The version that a site is known to hold from now on, when it tells that it holds this one.
    fn newly_held(&self, site: SiteId, stamp: Stamp) -> Option<Stamp>
        ensures { noted site stamp self.now ≡ held_if site self.now result }
    {
        let Some(version) = self.version(stamp) else {
            return None;
        };
        let Some(holding) = self.holding(site.get()) else {
            return Some(version.stamp);
        };
        if self.is_above(version, holding.stamp) {
            Some(version.stamp)
        } else {
            None
        }
    }

    /// The version is above the one of this stamp, or that one isn't known.
    fn is_above(&self, version: &VersionRow, stamp: Stamp) -> bool
        ensures { result ≡ rises_to version.now (version_of self.now stamp) }
    {
        match self.version(stamp) {
            Some(old) => rises(old, version),
            None => true,
        }
    }
}

/// The site is a member.
fn is_member(members: &Members, site: SiteId) -> bool
    ensures { result ≡ is_member members.now site }
{
    members.boot_of(site) != 0
}
