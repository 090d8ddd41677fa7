ghost use Rattle.std.specs.Prelude.{◌≡◌, ◌≤◌, ◌<◌, ℕ, ◌+◌, List, [], ◌∷◌, ◌++◌, length, IfOk, IfErr, OnOk, min};
ghost use Rattle.locus_ids.specs.Sizes.{sites_max};
ghost use Rattle.locus_ids.specs.declared.config.Config.{Config};
ghost use Rattle.schedule_lines.specs.declared.line.ScheduleLine.{ScheduleLine};
ghost use Rattle.schedule_lines.specs.declared.line.ScheduleLine.TheVariants.{Event};
ghost use Rattle.the_run.specs.Worlds.{World as RunWorld, first_world};
ghost use Rattle.the_run.specs.Runs.{act, run_in, entries_of_run};
ghost use Rattle.the_run.specs.Commands.{counts_onto, no_counts};
ghost use Rattle.run_book.specs.Writings.{written_of, counts_in};
ghost use Rattle.run_book.specs.Ledgers.{limit_in, books};
ghost use Rattle.world.specs.States.{state_of, first_state, AreFirst};
ghost use Rattle.world.specs.Shown.{Taken, nothing_taken, all_taken, Shows, Follows};
ghost use Rattle.std.specs.List.{AllByRecursion};
ghost use Rattle.packet_order.specs.Counts.{FitsIfCounted};
ghost use Rattle.complete_laws.specs.of_row_laws.Voids.{LinesFit};
ghost use Rattle.complete_laws.specs.of_tree_laws.Orders.Joining.{PacksAreOfSites};
ghost use Rattle.world.specs.Faults.{MayCome};
ghost use Rattle.rest_laws.specs.CopiesKept.Contents.{CopiesHaveContents};
ghost use Rattle.rest_laws.specs.CopiesKept.Hold.{VersionsStand};

use crate::WorldFault;
use crate::open::OpenCircuits;
use epoch_rules::site_at;
use locus_ids::sizes::SITES;
use locus_ids::{Config, NoMemory};
use packet_order::Dispatch;
use run_book::{BookFault, Passed, RunBook, RunCounts, Writing};
use schedule_lines::Line;
use site_place::SitePlace;
use std::alloc::Global;

/// The world of a run.
pub struct World {
    pub(crate) alloc: Global,
    pub(crate) config: Config,
    pub(crate) places: Vec<SitePlace>,
    pub(crate) cuts: OpenCircuits,
    pub(crate) book: RunBook,
}

impl Drop for World {
    /// Taken apart in one place: where a world is dropped, the prover sees one call.
    fn drop(self) {
        let World {
            alloc: _,
            config: _,
            places: _,
            cuts: _,
            book: _,
        } = self;
    }
}

/// One more site of a cluster, freshly formatted and in its first boot.
fn add_place(
    alloc: Global,
    config: &Config,
    at: usize,
    places: &mut Vec<SitePlace>,
) -> Result<(), NoMemory>
    requires { at < sites_max }
    ensures { OnOk result (places.new.items ≡ places.old.items ++ first_state config.now (at + 1) ∷ []) }
{
    let place = SitePlace::new(alloc, config, site_at(at))?;
    places.push(place)?;
    Ok(())
}

/// So many sites of a cluster, each freshly formatted and in its first boot.
fn add_places(
    alloc: Global,
    config: &Config,
    count: usize,
    places: &mut Vec<SitePlace>,
) -> Result<(), NoMemory>
    requires few { count ≤ sites_max }
    requires none { places.old.items ≡ [] }
    ensures { OnOk result (AreFirst config.now count places.new.items) }
{
    for at in 0..count {
        add_place(alloc, config, at, places)?;
    }
    Ok(())
}

/// The sites of a cluster, each freshly formatted and in its first boot.
fn first_places(alloc: Global, config: &Config) -> Result<Vec<SitePlace>, NoMemory>
    ensures { IfOk result (λ made. AreFirst config.now (min config.now.sites sites_max) made.items) }
{
    let mut places = Vec::new(alloc);
    let count = usize::from(config.sites.min(SITES as u8));
    add_places(alloc, config, count, &mut places)?;
    Ok(places)
}

impl World {
    /// The first world of a cluster: all sites run in their first boot, in no epoch, and all circuits are up.
    /// Of its records this is written.
    pub fn new(alloc: Global, config: Config, writing: Writing) -> Result<World, NoMemory>
        ensures { IfOk result (λ made. Shows config (nothing_taken writing) (first_world config) (state_of made)) }
    {
        let places = first_places(alloc, &config)?;
        let book = RunBook::new(alloc, writing)?;
        Ok(World {
            alloc,
            config,
            places,
            cuts: OpenCircuits::new(alloc),
            book,
        })
    }

    /// The limit that an event passed. Nothing happens after it.
    pub fn passed(&self) -> Option<Passed>
        ensures { (c : Config) (taken : Taken) (w : RunWorld) → Shows c taken w (state_of self.now) → limit_in result ≡ w.over }
    {
        self.book.passed()
    }

    /// What is written of the records and nobody has taken yet.
    pub fn fresh(&self) -> &[u8]
        ensures { (c : Config) (taken : Taken) (w : RunWorld) → Shows c taken w (state_of self.now) → written_of taken.writing (entries_of_run w) ≡ taken.bytes ++ result.now }
    {
        self.book.fresh()
    }

    /// What is written is taken.
    pub fn take_fresh(&mut self)
        ensures { (c : Config) (taken : Taken) (w : RunWorld) → Shows c taken w (state_of self.old) → Shows c (all_taken taken.writing w) w (state_of self.new) }
    {
        self.book.take_fresh();
    }

    /// The counts of all records.
    pub fn counts(&self) -> RunCounts
        ensures { (c : Config) (taken : Taken) (w : RunWorld) → Shows c taken w (state_of self.now) → counts_in result ≡ counts_onto no_counts (entries_of_run w) }
    {
        self.book.counts()
    }

    /// What an event sends and tells, in the book.
    pub(crate) fn note(&mut self, line: u32, out: &Dispatch) -> Result<(), WorldFault>
        ensures config { OnOk result (self.new.config ≡ self.old.config) }
        ensures places { OnOk result (self.new.places.items ≡ self.old.places.items) }
        ensures cuts { OnOk result (self.new.cuts ≡ self.old.cuts) }
        ensures book { OnOk result (self.new.book ≡ books line out.now.packets out.now.records self.old.book) }
        ensures fit { IfErr result (λ fault. AllByRecursion FitsIfCounted out.now.packets → fault ≡ WorldFault.NoMemory) }
    {
        self.book.happened(line, out)?;
        Ok(())
    }

    /// What an event tells that sends nothing, in the book.
    pub(crate) fn note_told(&mut self, line: u32, out: &Dispatch) -> Result<(), NoMemory>
        requires { out.now.packets ≡ [] }
        ensures config { OnOk result (self.new.config ≡ self.old.config) }
        ensures places { OnOk result (self.new.places.items ≡ self.old.places.items) }
        ensures cuts { OnOk result (self.new.cuts ≡ self.old.cuts) }
        ensures book { OnOk result (self.new.book ≡ books line out.now.packets out.now.records self.old.book) }
    {
        match self.book.happened(line, out) {
            Ok(()) => Ok(()),
            Err(BookFault::NoMemory) => Err(NoMemory),
            // Only a packet can be unfit.
            Err(BookFault::Unfit) => unreachable!(),
        }
    }

    /// Does a line of a schedule as the run says, with its number. Whatever world of the run is shown before, after it that world
    /// is shown as the line leaves it. Where that is the run of some lines, it's then that of these lines with this one, and of its
    /// versions holds what does of every run's; and where these lines and this one are in range, each copy has the bytes of its
    /// version, and nothing but memory may be wanting.
    pub fn step(&mut self, number: u32, line: Line) -> Result<(), WorldFault>
        ensures step { OnOk result (Follows (λ c w. act c number line w) (state_of self.old) (state_of self.new)) }
        ensures versions { (c : Config) (lines : List ScheduleLine) (taken : Taken) → number ≡ length lines + 1 → Shows c taken (run_in c lines) (state_of self.old) → OnOk result (Shows c taken (run_in c (lines ++ Event line ∷ [])) (state_of self.new) × VersionsStand c (run_in c (lines ++ Event line ∷ []))) }
        ensures copies { (c : Config) (lines : List ScheduleLine) (taken : Taken) → number ≡ length lines + 1 → LinesFit c (lines ++ Event line ∷ []) → PacksAreOfSites c → length c.packs ≤ 4 → Shows c taken (run_in c lines) (state_of self.old) → OnOk result (CopiesHaveContents (run_in c (lines ++ Event line ∷ []))) }
        ensures fault { IfErr result (MayCome line) }
        ensures complete { (c : Config) (lines : List ScheduleLine) (taken : Taken) → number ≡ length lines + 1 → LinesFit c (lines ++ Event line ∷ []) → PacksAreOfSites c → length c.packs ≤ 4 → Shows c taken (run_in c lines) (state_of self.old) → IfErr result (λ fault. fault ≡ WorldFault.NoMemory) }
    {
        // A line that isn't done is dropped by a call, so that no proof here has a case for each kind of line.
        if self.book.passed().is_some() {
            drop(line);
            return Ok(());
        }
        self.act(number, line)?;
        Ok(())
    }
}
