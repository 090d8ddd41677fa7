ghost use Rattle.std.specs.Prelude.{◌≡◌, ℕ, ◌≤◌, ◌∷◌, [], not, Bool, cond, false, replicate, filter, slice_index, slice_index_or, OnOk};
ghost use Rattle.locus_ids.specs.Sizes.{sites_max};
ghost use Rattle.the_run.specs.Worlds.{CutCircuit, is_between};
ghost use Rattle.circuits.specs.Circuits.{circuit_of, sender_on, receiver_on, is_cut_among, both_marked, reached_boot, reached_boots, is_up_among, TellsUp};

use crate::numbers::circuit_of;
use locus_ids::sizes::SITES;
use locus_ids::{Links, NoMemory, SiteId};
use std::alloc::Global;
use std::marker::Model;

/// A circuit between two sites, whichever of them sends.
#[derive(Clone, Copy)]
pub struct Circuit {
    pub one: SiteId,
    pub other: SiteId,
}

impl Model for Circuit {
    ghost use Rattle.the_run.specs.Worlds.{CutCircuit};

    ghost Value = { CutCircuit };

    ghost view = { λ c. record { one = c.one; other = c.other } };

    ghost inverse = { λ c. record { one = c.one; other = c.other } };
}

/// The circuits that are cut, the last one that was cut first. A table by number tells of each at once.
#[derive(Drop)]
pub struct CutCircuits {
    cuts: Vec<Circuit>,
    table: [bool; 256],
}

impl Model for CutCircuits {
    ghost use Rattle.std.specs.Prelude.{List, reverse};
    ghost use Rattle.the_run.specs.Worlds.{CutCircuit};
    ghost use Rattle.circuits.specs.Circuits.{TellsCuts};

    ghost Value = { List CutCircuit };

    ghost view = { λ c. reverse c.cuts.items };

    ghost invariant = { λ c. TellsCuts c.table (reverse c.cuts.items) };
}

/// Nothing is marked.
fn no_marks() -> [bool; 256]
    ensures { result ≡ replicate 256 false }
{
    [false; 256]
}

/// Marks the circuits of both directions.
fn mark(table: &mut [bool; 256], a: SiteId, b: SiteId, is_cut: bool)
    ensures { table.new ≡ both_marked table.old a b is_cut }
{
    table[usize::from(circuit_of(a, b))] = is_cut;
    table[usize::from(circuit_of(b, a))] = is_cut;
}

fn is_between(c: &Circuit, a: SiteId, b: SiteId) -> bool
    ensures { result ≡ is_between a b c.now }
{
    (c.one == a && c.other == b) || (c.one == b && c.other == a)
}

fn take_out(cuts: &mut Vec<Circuit>, a: SiteId, b: SiteId)
    ensures { cuts.new.items ≡ filter (λ c. not (is_between a b c)) cuts.old.items }
{
    cuts.retain(|c| !is_between(c, a, b));
}

impl CutCircuits {
    ghost use Rattle.std.specs.Prelude.{List};
    ghost use Rattle.the_run.specs.Worlds.{CutCircuit};

    /// No circuit is cut.
    pub fn new(alloc: Global) -> CutCircuits
        ensures { result ≡ [] }
    {
        CutCircuits {
            cuts: Vec::new(alloc),
            table: no_marks(),
        }
    }

    /// The circuit between two sites is cut.
    pub fn is_cut(&self, a: SiteId, b: SiteId) -> bool
        ensures { result ≡ is_cut_among self.now a b }
    {
        self.table[usize::from(circuit_of(a, b))]
    }

    /// Cuts the circuit between two sites.
    pub fn cut(&mut self, a: SiteId, b: SiteId) -> Result<(), NoMemory>
        ensures { OnOk result (self.new ≡ record { one = a; other = b } ∷ self.old) }
    {
        self.cuts.push(Circuit { one: a, other: b })?;
        mark(&mut self.table, a, b, true);
        Ok(())
    }

    /// Mends the circuit between two sites.
    pub fn mend(&mut self, a: SiteId, b: SiteId)
        ensures { self.new ≡ filter (λ c. not (is_between a b c)) self.old }
    {
        take_out(&mut self.cuts, a, b);
        mark(&mut self.table, a, b, false);
    }

    /// The boot number of a site that is reached from another, given the boots of the sites that run, site 1 first; else 0.
    fn reached_boot(&self, boots: &[u32; SITES], from: SiteId, to: u8) -> u32
        requires low { 1 ≤ to }
        requires high { to ≤ sites_max }
        ensures { result ≡ reached_boot self.now boots.now from to }
    {
        match SiteId::new(to) {
            Some(site) if !self.is_cut(from, site) => boots[usize::from(to) - 1],
            _ => 0,
        }
    }

    /// The boot number of each site that is reached from this one, given the boots of the sites that run, site 1 first, with 0
    /// for one that doesn't run.
    pub fn links_of(&self, boots: &[u32; SITES], from: SiteId) -> Links
        ensures { result ≡ reached_boots self.now boots.now from }
    {
        let mut boot = [0; SITES];
        for to in 1..SITES as u8 + 1 {
            boot[usize::from(to) - 1] = self.reached_boot(boots, from, to);
        }
        Links { boot }
    }

    /// The circuit of this number is up: both sites run and it isn't cut.
    fn is_number_up(&self, boots: &[u32; SITES], circuit: u8) -> bool
        ensures { result ≡ is_up_among self.now boots.now (sender_on circuit) (receiver_on circuit) }
    {
        boots[usize::from(circuit / SITES as u8)] != 0
            && boots[usize::from(circuit % SITES as u8)] != 0
            && !self.table[usize::from(circuit)]
    }

    /// Tells of each circuit, by its number, whether it is up.
    pub fn up_table(&self, boots: &[u32; SITES]) -> [bool; 256]
        ensures { TellsUp result self.now boots.now }
    {
        let mut up = no_marks();
        for circuit in 0..256 {
            up[circuit] = self.is_number_up(boots, circuit as u8);
        }
        up
    }
}
