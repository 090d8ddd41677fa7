ghost use Rattle.std.specs.Prelude.{◌≡◌, ◌⊎◌, ◌+◌, ◌-◌, ◌<◌, length, map, OnOk, IfOk, IfSome, IfNone};
ghost use Rattle.commit_graph.specs.Vectors.{numbers_from};
ghost use Rattle.promises.specs.Past.{first_site};
ghost use Rattle.audit_sites.specs.Rows.{row_of, with_site, IsNumbered, boots, stops, leaves, joins, accepts, holds_again, names, takes};

use crate::site::SiteRow;
use crate::starting::first_rows;
use locus_ids::{Config, EpochId, FileId, NoMemory, Stamp};
use std::alloc::Global;
use std::marker::Model;
use trace_book::{Call, Descriptor};

/// The sites of the cluster, site 1 first.
#[derive(Drop)]
pub struct SiteRows {
    rows: Vec<SiteRow>,
    /// what is known of a number that is no site's
    nobody: SiteRow,
}

impl Model for SiteRows {
    ghost use Rattle.std.specs.Prelude.{◌≡◌, ◌⊎◌, List};
    ghost use Rattle.promises.specs.Past.{Site, no_site};
    ghost use Rattle.audit_sites.specs.Rows.{IsNumbered};

    ghost Value = { List Site };

    ghost view = { λ t. t.rows.items };

    ghost invariant = { λ t. IsNumbered t.rows.items × (t.nobody ≡ no_site) };
}

impl SiteRows {
    /// The cluster as it begins.
    pub fn new(alloc: Global, config: &Config) -> Result<SiteRows, NoMemory>
        ensures { IfOk result (λ made. made ≡ map (first_site config.now) (numbers_from 1 config.now.sites)) }
    {
        let rows = first_rows(alloc, config)?;
        Ok(SiteRows {
            rows,
            nobody: SiteRow::nobody(alloc),
        })
    }

    /// All sites, site 1 first.
    pub fn as_slice(&self) -> &[SiteRow]
        ensures same { result.now ≡ self.now }
        ensures numbered { IsNumbered self.now }
    {
        self.rows.as_slice()
    }

    /// What is known of the site of this number.
    pub fn site_at(&self, site: u8) -> &SiteRow
        ensures { result.now ≡ row_of self.now site }
    {
        match place_of(self.rows.as_slice(), site) {
            Some(place) => &self.rows[place],
            None => &self.nobody,
        }
    }

    /// The site boots.
    pub fn boot(&mut self, site: u8, boot: u32)
        ensures { self.new ≡ with_site site (boots boot) self.old }
    {
        if let Some(place) = place_of(self.rows.as_slice(), site) {
            let row = &mut self.rows[place];
            row.boots(boot);
        }
    }

    /// The site stops.
    pub fn stop(&mut self, site: u8)
        ensures { self.new ≡ with_site site stops self.old }
    {
        if let Some(place) = place_of(self.rows.as_slice(), site) {
            let row = &mut self.rows[place];
            row.stops();
        }
    }

    /// The site is in no epoch.
    pub fn depart(&mut self, site: u8)
        ensures { self.new ≡ with_site site leaves self.old }
    {
        if let Some(place) = place_of(self.rows.as_slice(), site) {
            let row = &mut self.rows[place];
            row.leaves();
        }
    }

    /// The site is in this epoch.
    pub fn join(&mut self, site: u8, epoch: EpochId)
        ensures { self.new ≡ with_site site (joins epoch) self.old }
    {
        if let Some(place) = place_of(self.rows.as_slice(), site) {
            let row = &mut self.rows[place];
            row.joins(epoch);
        }
    }

    /// The site accepts its next call, which is its `n`-th of this boot.
    pub fn accept(&mut self, site: u8, process: u8, n: u32, words: &Call)
        requires next { n ≡ (row_of self.old site).accepted + 1 }
        ensures { self.new ≡ with_site site (accepts process words.now) self.old }
    {
        if let Some(place) = place_of(self.rows.as_slice(), site) {
            let row = &mut self.rows[place];
            row.accepts(process, n, words);
        }
    }

    /// The number of the process stands for this at the site.
    pub fn take_descriptor(
        &mut self,
        site: u8,
        process: u8,
        fd: u16,
        descriptor: Descriptor,
    ) -> Result<(), NoMemory>
        ensures { OnOk result (self.new ≡ with_site site (names (record { process = process; fd = fd; names = descriptor })) self.old) }
    {
        if let Some(place) = place_of(self.rows.as_slice(), site) {
            let row = &mut self.rows[place];
            row.names(process, fd, descriptor)?;
        }
        Ok(())
    }

    /// The number of the process is held again by the instance that this opening stands for.
    pub fn hold_again(&mut self, site: u8, process: u8, fd: u16, opening: Descriptor)
        ensures { self.new ≡ with_site site (holds_again process fd opening) self.old }
    {
        if let Some(place) = place_of(self.rows.as_slice(), site) {
            let row = &mut self.rows[place];
            row.holds_again(process, fd, opening);
        }
    }

    /// The site has this version of the file in place of another.
    pub fn has_now(&mut self, site: u8, file: FileId, stamp: Stamp) -> Result<(), NoMemory>
        ensures { OnOk result (self.new ≡ with_site site (takes (record { file = file; stamp = stamp })) self.old) }
    {
        if let Some(place) = place_of(self.rows.as_slice(), site) {
            let row = &mut self.rows[place];
            row.takes(file, stamp)?;
        }
        Ok(())
    }
}

/// Where the row of the site of this number stands.
fn place_of(rows: &[SiteRow], site: u8) -> Option<usize>
    ensures some { IfSome result (λ place. (place < length rows.now) × (site ≡ place + 1)) }
    ensures none { IfNone result ((site ≡ 0) ⊎ (length rows.now < site)) }
{
    if site == 0 {
        return None;
    }
    let place = usize::from(site - 1);
    if place < rows.len() {
        Some(place)
    } else {
        None
    }
}
