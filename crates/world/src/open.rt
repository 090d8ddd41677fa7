ghost use Rattle.std.specs.Prelude.{◌≡◌, ◌∷◌, [], not, Bool, true, filter, OnOk};
ghost use Rattle.std.specs.List.{AllByRecursion};
ghost use Rattle.the_run.specs.Worlds.{is_between};
ghost use Rattle.circuits.specs.Circuits.{is_cut_among, reached_boots, TellsUp};
ghost use Rattle.packet_mail.specs.Posts.{next_number, IsKnown};
ghost use Rattle.world.specs.Reached.{TellsLinks, AreOf, boots_of};

use crate::sites::{boot_at, boots_of};
use circuits::CutCircuits;
use epoch_rules::site_at;
use locus_ids::sizes::SITES;
use locus_ids::{Links, NoMemory, SiteId};
use run_book::RunBook;
use site_place::SitePlace;
use std::alloc::Global;
use std::marker::Model;

/// What is told of the circuits at the boots of so many sites, which are 0 behind them: whether each circuit is up, and what each
/// site reaches.
#[derive(Drop)]
struct Tables {
    sites: usize,
    boots: [u32; SITES],
    up: [bool; 256],
    links: [Links; SITES],
}

/// The circuits that are cut, with tables that tell of each whether it is up. They were made for the boots that they name, and
/// are made again where others are asked for.
#[derive(Drop)]
pub(crate) struct OpenCircuits {
    cuts: CutCircuits,
    tables: Tables,
}

impl Model for OpenCircuits {
    ghost use Rattle.std.specs.Prelude.{List};
    ghost use Rattle.the_run.specs.Worlds.{CutCircuit};
    ghost use Rattle.circuits.specs.Circuits.{TellsUp};
    ghost use Rattle.world.specs.Reached.{TellsLinks, AreOf};

    ghost Value = { List CutCircuit };

    ghost view = { λ c. c.cuts };

    ghost invariant = { λ c. TellsUp c.tables.up c.cuts c.tables.boots × (TellsLinks c.tables.links c.cuts c.tables.boots × AreOf c.tables.sites c.tables.boots) };
}

/// The sites have these boots, those of so many sites.
fn are_told(sites: usize, boots: &[u32; SITES], places: &[SitePlace]) -> bool
    requires { AreOf sites boots.now }
    ensures { result ≡ true → boots.now ≡ boots_of places.now }
{
    if places.len() != sites {
        return false;
    }
    for at in 0..sites {
        if boots[at] != boot_at(places, at as u8 + 1) {
            return false;
        }
    }
    true
}

/// The boots that each site reaches, site 1 first.
fn links_of_all(cuts: &CutCircuits, boots: &[u32; SITES]) -> [Links; SITES]
    ensures { TellsLinks result cuts.now boots.now }
{
    let mut links = [Links { boot: [0; SITES] }; SITES];
    for at in 0..SITES {
        links[at] = cuts.links_of(boots, site_at(at));
    }
    links
}

/// What is told of the circuits at these boots of so many sites.
fn tables_of(cuts: &CutCircuits, sites: usize, boots: &[u32; SITES]) -> Tables
    requires { AreOf sites boots.now }
    ensures sites { AreOf result.sites result.boots }
    ensures boots { result.boots ≡ boots.now }
    ensures up { TellsUp result.up cuts.now boots.now }
    ensures links { TellsLinks result.links cuts.now boots.now }
{
    Tables {
        sites,
        boots: *boots,
        up: cuts.up_table(boots),
        links: links_of_all(cuts, boots),
    }
}

/// The tables are made again, for the boots of these sites. Whoever asks where they are told has no room for new ones to clear.
#[cold]
#[inline(never)]
fn tell_again(tables: &mut Tables, cuts: &CutCircuits, places: &[SitePlace])
    ensures sites { AreOf tables.new.sites tables.new.boots }
    ensures boots { tables.new.boots ≡ boots_of places.now }
    ensures up { TellsUp tables.new.up cuts.now (boots_of places.now) }
    ensures links { TellsLinks tables.new.links cuts.now (boots_of places.now) }
{
    *tables = tables_of(cuts, places.len().min(SITES), &boots_of(places));
}

impl OpenCircuits {
    ghost use Rattle.std.specs.Prelude.{List};
    ghost use Rattle.the_run.specs.Worlds.{CutCircuit};

    /// No circuit is cut.
    pub(crate) fn new(alloc: Global) -> OpenCircuits
        ensures { result ≡ [] }
    {
        let cuts = CutCircuits::new(alloc);
        let tables = tables_of(&cuts, 0, &[0; SITES]);
        OpenCircuits { cuts, tables }
    }

    /// The circuit between two sites is cut.
    pub(crate) fn is_cut(&self, a: SiteId, b: SiteId) -> bool
        ensures { result ≡ is_cut_among self.now a b }
    {
        self.cuts.is_cut(a, b)
    }

    /// Cuts the circuit between two sites.
    pub(crate) fn cut(&mut self, a: SiteId, b: SiteId) -> Result<(), NoMemory>
        ensures { OnOk result (self.new ≡ record { one = a; other = b } ∷ self.old) }
    {
        let done = self.cuts.cut(a, b);
        self.tables = tables_of(&self.cuts, self.tables.sites, &self.tables.boots);
        done
    }

    /// Mends the circuit between two sites.
    pub(crate) fn mend(&mut self, a: SiteId, b: SiteId)
        ensures { self.new ≡ filter (λ c. not (is_between a b c)) self.old }
    {
        self.cuts.mend(a, b);
        self.tables = tables_of(&self.cuts, self.tables.sites, &self.tables.boots);
    }

    /// The boot number of each site that is reached from this one, with 0 for one that doesn't run.
    #[inline(always)]
    pub(crate) fn links_of(&mut self, places: &[SitePlace], from: SiteId) -> Links
        ensures links { result ≡ reached_boots self.old (boots_of places.now) from }
        ensures kept { self.new ≡ self.old }
    {
        if !are_told(self.tables.sites, &self.tables.boots, places) {
            tell_again(&mut self.tables, &self.cuts, places);
        }
        self.tables.links[usize::from(from.get()) - 1]
    }

    /// The lowest number of a packet under way whose circuit is up.
    pub(crate) fn next(&mut self, places: &[SitePlace], book: &RunBook) -> Option<u32>
        ensures value { (up : List Bool) × (TellsUp up self.old (boots_of places.now) × (result ≡ next_number up book.now.post)) }
        ensures known { AllByRecursion (IsKnown book.now.post) book.now.post.underway }
        ensures kept { self.new ≡ self.old }
    {
        if !are_told(self.tables.sites, &self.tables.boots, places) {
            tell_again(&mut self.tables, &self.cuts, places);
        }
        book.next(&self.tables.up)
    }
}
