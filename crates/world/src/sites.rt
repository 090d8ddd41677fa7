ghost use Rattle.std.specs.Prelude.{◌≡◌, ◌≤◌, ◌==◌, ◌&&◌, not, false, [], ◌∷◌, IfErr, IfOk, OnOk};
ghost use Rattle.the_run.specs.Worlds.{place_at, boot_of, is_up, happens, voids, says_only};
ghost use Rattle.the_run.specs.Runs.{is_stopped, is_in_no_epoch, is_busy, unless_void};
ghost use Rattle.site_place.specs.Places.{event_of};
ghost use Rattle.world.specs.States.{state_of};
ghost use Rattle.world.specs.Reached.{boot_at, boots_of};
ghost use Rattle.world.specs.Shown.{Follows, Answers};
ghost use Rattle.world.specs.Faults.{WantsMemory};
ghost use Rattle.complete_laws.specs.Lines.{CanHappen};

use crate::{World, WorldFault};
use locus_ids::sizes::SITES;
use locus_ids::{NoMemory, SiteId};
use packet_order::Dispatch;
use site_place::{SiteEvent, SitePlace};
use std::alloc::Global;
use trace_book::Record;
use wire_messages::Outbox;

/// The boot number of a site, where it is there and runs; else 0.
pub fn boot_at(places: &[SitePlace], site: u8) -> u32
    requires { 1 ≤ site }
    ensures { result ≡ boot_at places.now site }
{
    match places.get(usize::from(site) - 1) {
        Some(place) => place.boot(),
        None => 0,
    }
}

/// The boot number of each site that runs, site 1 first, with 0 for one that doesn't.
pub fn boots_of(places: &[SitePlace]) -> [u32; SITES]
    ensures { result ≡ boots_of places.now }
{
    let mut boots = [0; SITES];
    for site in 1..SITES as u8 + 1 {
        boots[usize::from(site) - 1] = boot_at(places, site);
    }
    boots
}

/// Sites of these boots have their circuit up, unless it is cut.
fn is_open(first: u32, second: u32, is_cut: bool) -> bool
    ensures { result ≡ (not (first == 0) && (not (second == 0) && not is_cut)) }
{
    first != 0 && (second != 0 && !is_cut)
}

/// One record, and no packet.
fn told_alone(alloc: Global, what: Record) -> Result<Dispatch, NoMemory>
    ensures { IfOk result (λ out. out ≡ record { packets = []; records = what ∷ [] }) }
{
    let mut outbox = Outbox::new(alloc);
    outbox.note(what)?;
    let mut out = Dispatch::new(alloc);
    out.add(outbox)?;
    Ok(out)
}

impl World {
    /// The boot number of a site that runs, else 0.
    fn boot_of(&self, site: SiteId) -> u32
        ensures { Answers (λ w. boot_of (place_at w site)) (state_of self.now) result }
    {
        match self.places.get(usize::from(site.get()) - 1) {
            Some(place) => place.boot(),
            None => 0,
        }
    }

    /// The circuit between two sites is up.
    pub(crate) fn is_up(&self, from: SiteId, to: SiteId) -> bool
        ensures { Answers (λ w. is_up w from to) (state_of self.now) result }
    {
        let first = self.boot_of(from);
        let second = self.boot_of(to);
        let is_cut = self.cuts.is_cut(from, to);
        is_open(first, second, is_cut)
    }

    /// The site doesn't run.
    pub(crate) fn is_stopped(&self, site: SiteId) -> bool
        ensures { Answers (λ w. is_stopped (place_at w site)) (state_of self.now) result }
    {
        match self.places.get(usize::from(site.get()) - 1) {
            Some(place) => place.is_stopped(),
            None => true,
        }
    }

    /// The site is in no epoch.
    pub(crate) fn is_in_no_epoch(&self, site: SiteId) -> bool
        ensures { Answers (λ w. is_in_no_epoch (place_at w site)) (state_of self.now) result }
    {
        match self.places.get(usize::from(site.get()) - 1) {
            Some(place) => place.is_in_no_epoch(),
            None => true,
        }
    }

    /// A call of the process waits, or the site doesn't run.
    pub(crate) fn is_busy(&self, site: SiteId, process: u8) -> bool
        ensures { Answers (λ w. is_busy process (place_at w site)) (state_of self.now) result }
    {
        match self.places.get(usize::from(site.get()) - 1) {
            Some(place) => place.is_busy(process),
            None => true,
        }
    }

    /// Tells a record, and nothing else happens.
    pub(crate) fn tell(&mut self, line: u32, what: Record) -> Result<(), NoMemory>
        ensures { OnOk result (Follows (λ c w. says_only line what w) (state_of self.old) (state_of self.new)) }
    {
        let out = told_alone(self.alloc, what)?;
        self.note_told(line, &out)?;
        Ok(())
    }

    /// The line has no effect.
    pub(crate) fn void(&mut self, line: u32) -> Result<(), NoMemory>
        ensures { OnOk result (Follows (λ c w. voids line w) (state_of self.old) (state_of self.new)) }
    {
        self.tell(line, Record::Void)
    }

    /// An event of a site, where it runs and no limit was passed. Where it is called the kind of event is known, so that nothing of
    /// it has to be moved or asked for again.
    #[inline(always)]
    pub(crate) fn happen(
        &mut self,
        line: u32,
        site: SiteId,
        event: SiteEvent,
    ) -> Result<(), WorldFault>
        ensures step { OnOk result (Follows (λ c w. happens c line site (event_of event) w) (state_of self.old) (state_of self.new)) }
        ensures fit { IfErr result (WantsMemory (λ c w. CanHappen c site (event_of event) w) (state_of self.old)) }
    {
        // An event that doesn't happen is dropped by a call, so that no proof here has a case for each kind of event.
        if self.book.passed().is_some() {
            drop(event);
            return Ok(());
        }
        let at = usize::from(site.get()) - 1;
        if at >= self.places.len() {
            drop(event);
            return Ok(());
        }
        if self.places[at].is_stopped() {
            drop(event);
            return Ok(());
        }
        let links = self.cuts.links_of(&self.places, site);
        let out = self.places[at].happen(&links, event)?;
        self.note(line, &out)?;
        Ok(())
    }

    /// An event of a site, unless the line is void.
    pub(crate) fn happen_unless(
        &mut self,
        line: u32,
        is_void: bool,
        site: SiteId,
        event: SiteEvent,
    ) -> Result<(), WorldFault>
        ensures step { OnOk result (Follows (λ c w. unless_void line is_void (happens c line site (event_of event)) w) (state_of self.old) (state_of self.new)) }
        ensures fit { IfErr result (WantsMemory (λ c w. is_void ≡ false → CanHappen c site (event_of event) w) (state_of self.old)) }
    {
        if is_void {
            drop(event);
            self.void(line)?;
            return Ok(());
        }
        self.happen(line, site, event)?;
        Ok(())
    }
}
