ghost use Rattle.std.specs.Prelude.{◌≡◌, ◌+◌, ◌-◌, ◌<◌, ◌≤◌, ◌↔◌, List, [], ◌∷◌, length, take, true, IfOk, OnOk, OnErr, map, Option};
ghost use Rattle.std.specs.Option.{option_copied};
ghost use Rattle.locus_ids.specs.Sizes.{sites_max};
ghost use Rattle.version_vector.specs.Counters.{part, raised};
ghost use Rattle.conflict_flags.specs.declared.held.Held.{Held};
ghost use Rattle.conflict_flags.specs.Written.{joined_all};
ghost use Rattle.conflict_flags.specs.Copies.{is_below, is_maximal, tops, maxima, stamps_of};
ghost use Rattle.conflict_flags.specs.Table.{Table, start, happens, stepped, Does, counted, copy_at, copy_of, present, takes, the_file, IsNewest, settled};

use crate::Event;
use crate::held::{Held, is_below, is_maximal, maxima_of};
use commit_graph::{History, Version};
use locus_ids::sizes::SITES;
use locus_ids::{Bytes, FileId, NoMemory, SiteId, Stamp, Stamps};
use std::alloc::Global;
use std::marker::Model;
use version_vector::Vector;

/// The one file of a table.
pub const TABLE_FILE: FileId = FileId { group: 0, ino: 2 };

/// Why a call of a table is refused.
#[derive(Clone, Copy, PartialEq, Eq)]
pub enum TableFault {
    /// A site commits without a copy, and not the first version of all; the site to adopt from has no copy; or the
    /// copy of a site that resolves is not one of the maxima.
    NoCopy,
    /// The site's counter is at its greatest value.
    Spent,
    NoMemory,
}

/// The copies of one file without contents, one at each site or none, and its history.
#[derive(Drop)]
pub struct CopyTable {
    alloc: Global,
    history: History,
    copies: [Option<Held>; SITES],
}

impl Model for CopyTable {
    ghost use Rattle.std.specs.Prelude.{◌≡◌, length};
    ghost use Rattle.locus_ids.specs.Sizes.{sites_max};
    ghost use Rattle.conflict_flags.specs.Table.{Table};

    ghost Value = { Table };

    ghost view = { λ t. record { history = t.history; copies = t.copies } };

    ghost invariant = { λ t. length t.copies ≡ sites_max };
}

impl CopyTable {
    /// No copy and no version.
    pub fn new(alloc: Global) -> CopyTable
        ensures { result ≡ start }
    {
        CopyTable {
            alloc,
            history: History::new(alloc),
            copies: [None; SITES],
        }
    }

    pub fn history(&self) -> &History
        ensures { result.now ≡ self.now.history }
    {
        &self.history
    }

    /// The copy of a site.
    pub fn held(&self, site: SiteId) -> Option<&Held>
        ensures { option_copied result ≡ copy_of self.now site }
    {
        self.copies[place_of(site)].as_ref()
    }

    /// A version of the site on top of its copy, or the first version of all.
    pub fn commit(&mut self, site: SiteId) -> Result<Stamp, TableFault>
        ensures does { Does self.old (stepped self.old (Event.Commit site)) result self.new }
        ensures stamp { IfOk result (IsNewest self.new) }
    {
        match self.copy_of(site) {
            None => {
                if !self.history.is_empty() {
                    return Err(TableFault::NoCopy);
                }
                self.grow(site, &[], Vector::zero())
            }
            Some(held) => {
                let joined = held.vector;
                self.grow(site, &[held], joined)
            }
        }
    }

    /// The site takes the copy of another where it has none or one that is below it. It takes no memory.
    pub fn adopt(&mut self, site: SiteId, from: SiteId) -> Result<bool, TableFault>
        ensures does { Does self.old (stepped self.old (Event.Adopt site from)) result self.new }
        ensures memory { result ≡ Err TableFault.NoMemory → ⊥ }
        ensures took { IfOk result (λ took. (copy : Held) → copy_of self.old from ≡ Some copy → took ≡ takes copy (copy_of self.old site)) }
    {
        let Some(copy) = self.copy_of(from) else {
            return Err(TableFault::NoCopy);
        };
        let wanted = is_wanted(&copy, self.copy_of(site));
        if wanted {
            self.copies[place_of(site)] = Some(Held {
                site: site.get(),
                stamp: copy.stamp,
                vector: copy.vector,
            });
        }
        Ok(wanted)
    }

    /// A version of the site whose parents are all maxima of the copies.
    pub fn resolve(&mut self, site: SiteId) -> Result<Stamp, TableFault>
        ensures does { Does self.old (stepped self.old (Event.Resolve site)) result self.new }
        ensures stamp { IfOk result (IsNewest self.new) }
    {
        let Some(copy) = self.copy_of(site) else {
            return Err(TableFault::NoCopy);
        };
        let copies = Present::of(&self.copies);
        if !is_maximal(copies.as_slice(), &copy) {
            return Err(TableFault::NoCopy);
        }
        let joined = join_of_tops(copies.as_slice());
        if joined.bump(site).is_err() {
            return Err(TableFault::Spent);
        }
        let Ok(tops) = maxima_of(self.alloc, copies.as_slice()) else {
            return Err(TableFault::NoMemory);
        };
        self.grow(site, tops.as_slice(), joined)
    }

    /// Takes one event. One that is refused changes nothing.
    pub(crate) fn take_event(&mut self, event: Event) -> Result<(), NoMemory>
        ensures ok { OnOk result (self.new ≡ happens self.old event) }
        ensures err { OnErr result (self.new ≡ self.old) }
    {
        match event {
            Event::Commit(site) => settle(self.commit(site)),
            Event::Adopt(site, from) => settle(self.adopt(site, from)),
            Event::Resolve(site) => settle(self.resolve(site)),
        }
    }

    fn copy_of(&self, site: SiteId) -> Option<Held>
        ensures { result ≡ copy_of self.now site }
    {
        self.copies[place_of(site)]
    }

    /// A new version of the site on top of these copies.
    fn grow(
        &mut self,
        site: SiteId,
        tops: &[Held],
        joined: Vector<SITES>,
    ) -> Result<Stamp, TableFault>
        ensures does { Does self.old (counted self.old site (stamps_of tops.now) joined) result self.new }
        ensures stamp { IfOk result (IsNewest self.new) }
    {
        let Ok(vector) = joined.bump(site) else {
            return Err(TableFault::Spent);
        };
        let stamp = Stamp {
            site: site.get(),
            n: vector.part(site),
        };
        let Ok(parents) = stamps_of(self.alloc, tops) else {
            return Err(TableFault::NoMemory);
        };
        let version = Version {
            file: TABLE_FILE,
            site: stamp.site,
            stamp,
            parents,
            content: Bytes::new(self.alloc),
        };
        if self.history.push(version).is_err() {
            return Err(TableFault::NoMemory);
        }
        self.copies[place_of(site)] = Some(Held {
            site: stamp.site,
            stamp,
            vector,
        });
        Ok(stamp)
    }
}

/// Where the copy of a site stands.
fn place_of(site: SiteId) -> usize
    ensures value { result ≡ site - 1 }
    ensures low { 1 ≤ site }
    ensures high { site ≤ sites_max }
{
    (site.get() - 1) as usize
}

/// A refusal is no failure, but for memory.
fn settle<T: Drop>(outcome: Result<T, TableFault>) -> Result<(), NoMemory>
    ensures { result ≡ settled outcome }
{
    match outcome {
        Ok(_) => Ok(()),
        Err(TableFault::NoMemory) => Err(NoMemory),
        Err(_) => Ok(()),
    }
}

/// Whether a site with this copy or none takes the other.
fn is_wanted(copy: &Held, own: Option<Held>) -> bool
    ensures { result ≡ takes copy.now own }
{
    match own {
        None => true,
        Some(own) => is_below(&own.vector, &copy.vector),
    }
}

/// The copies that there are.
#[derive(Drop)]
struct Present {
    items: [Held; SITES],
    len: usize,
}

impl Model for Present {
    ghost use Rattle.std.specs.Prelude.{List, take, ◌≤◌};
    ghost use Rattle.locus_ids.specs.Sizes.{sites_max};
    ghost use Rattle.conflict_flags.specs.declared.held.Held.{Held};

    ghost Value = { List Held };

    ghost view = { λ p. take p.len p.items };

    ghost invariant = { λ p. p.len ≤ sites_max };
}

impl Present {
    fn of(copies: &[Option<Held>; SITES]) -> Present
        ensures { result ≡ present copies.now }
    {
        let nothing = Held {
            site: 0,
            stamp: Stamp { site: 0, n: 0 },
            vector: Vector::zero(),
        };
        let mut items = [nothing; SITES];
        let mut len = 0;
        for i in 0..SITES {
            if let Some(held) = copies[i] {
                items[len] = held;
                len += 1;
            }
        }
        Present { items, len }
    }

    fn as_slice(&self) -> &[Held]
        ensures { result.now ≡ self.now }
    {
        &self.items[..self.len]
    }
}

/// The join of the vectors of the maximal copies.
fn join_of_tops(all: &[Held]) -> Vector<SITES>
    ensures { result ≡ joined_all (λ held. held.vector) (tops all.now) }
{
    let mut joined = Vector::zero();
    let mut left = all.len();
    while left > 0 {
        left -= 1;
        let held = &all[left];
        if is_maximal(all, held) {
            joined = held.vector.join(&joined);
        }
    }
    joined
}

fn stamps_of(alloc: Global, copies: &[Held]) -> Result<Stamps, NoMemory>
    ensures { IfOk result (λ stamps. stamps ≡ stamps_of copies.now) }
{
    let mut stamps = Stamps::new(alloc);
    for held in copies {
        stamps.push(held.stamp)?;
    }
    Ok(stamps)
}
