ghost use Rattle.std.specs.Prelude.{◌≡◌, ℕ, not, false, None, Err, OnOk, IfErr};
ghost use Rattle.locus_ids.specs.declared.config.Config.{Config};
ghost use Rattle.role_steps.specs.Views.{Calls};
ghost use Rattle.the_run.specs.Worlds.{World as RunWorld, place_at, is_cut, arms, happens};
ghost use Rattle.the_run.specs.Runs.{is_stopped, is_in_no_epoch, is_busy, unless_void, stops_line, boots_line, cuts_circuit, mends_circuit, act};
ghost use Rattle.site_place.specs.Places.{event_of, armed_by};
ghost use Rattle.world.specs.States.{state_of};
ghost use Rattle.world.specs.Shown.{Taken, Shows, FollowsWithin};
ghost use Rattle.world.specs.Faults.{MayCome, WantsMemory, WantsMemoryWithin};
ghost use Rattle.complete_laws.specs.Lines.{CanBoot, CanDo, CanHappen};

use crate::{World, WorldFault};
use locus_ids::{NoMemory, SiteId};
use schedule_lines::Line;
use site_place::{CallCut, DiskScript, SiteEvent, StartFault};
use trace_book::Call;

impl World {
    /// A call of a process, void where the process is busy.
    fn call(&mut self, line: u32, site: SiteId, process: u8, call: Call) -> Result<(), WorldFault>
        ensures step { OnOk result (FollowsWithin (λ c w. unless_void line (is_busy process (place_at w site)) (happens c line site (Calls process call)) w) (state_of self.old) (state_of self.new)) }
        ensures fit { IfErr result (WantsMemoryWithin (λ c w. is_busy process (place_at w site) ≡ false → CanHappen c site (Calls process call) w) (state_of self.old)) }
    {
        let is_void = self.is_busy(site, process);
        self.happen_unless(line, is_void, site, SiteEvent::Call { process, call })?;
        Ok(())
    }

    /// A tick or a merge, void where the site doesn't run.
    fn stir(&mut self, line: u32, site: SiteId, event: SiteEvent) -> Result<(), WorldFault>
        ensures step { OnOk result (FollowsWithin (λ c w. unless_void line (is_stopped (place_at w site)) (happens c line site (event_of event)) w) (state_of self.old) (state_of self.new)) }
        ensures fit { IfErr result (WantsMemory (λ c w. CanHappen c site (event_of event) w) (state_of self.old)) }
    {
        let is_void = self.is_stopped(site);
        self.happen_unless(line, is_void, site, event)?;
        Ok(())
    }

    /// A parting or a giving up, void where the site is in no epoch.
    fn leave(&mut self, line: u32, site: SiteId, event: SiteEvent) -> Result<(), WorldFault>
        ensures step { OnOk result (FollowsWithin (λ c w. unless_void line (is_in_no_epoch (place_at w site)) (happens c line site (event_of event)) w) (state_of self.old) (state_of self.new)) }
        ensures fit { IfErr result (WantsMemoryWithin (λ c w. is_in_no_epoch (place_at w site) ≡ false → CanHappen c site (event_of event) w) (state_of self.old)) }
    {
        let is_void = self.is_in_no_epoch(site);
        self.happen_unless(line, is_void, site, event)?;
        Ok(())
    }

    /// The site stops, void where it doesn't run.
    fn stop(&mut self, line: u32, site: SiteId) -> Result<(), NoMemory>
        ensures { OnOk result (FollowsWithin (λ c w. stops_line line site (place_at w site) w) (state_of self.old) (state_of self.new)) }
    {
        let at = usize::from(site.get()) - 1;
        if at >= self.places.len() {
            self.void(line)?;
            return Ok(());
        }
        if self.places[at].is_stopped() {
            self.void(line)?;
            return Ok(());
        }
        let out = self.places[at].stop()?;
        self.note_told(line, &out)?;
        Ok(())
    }

    /// The site boots, void where it runs or isn't there.
    fn boot(&mut self, line: u32, site: SiteId) -> Result<(), StartFault>
        ensures step { OnOk result (FollowsWithin (λ c w. boots_line line site (place_at w site) w) (state_of self.old) (state_of self.new)) }
        ensures spent { result ≡ Err StartFault.Spent → (c : Config) (taken : Taken) (w : RunWorld) → w.over ≡ None → Shows c taken w (state_of self.old) → CanBoot (Line.Boot site) w → ⊥ }
    {
        let at = usize::from(site.get()) - 1;
        if at >= self.places.len() {
            self.void(line)?;
            return Ok(());
        }
        if !self.places[at].is_stopped() {
            self.void(line)?;
            return Ok(());
        }
        let out = self.places[at].start()?;
        self.note_told(line, &out)?;
        Ok(())
    }

    /// A script is armed, in place of one that is.
    fn arm(&mut self, script: DiskScript)
        ensures { FollowsWithin (λ c w. arms (armed_by script) w) (state_of self.old) (state_of self.new) }
    {
        let at = usize::from(script.site.get()) - 1;
        if at < self.places.len() {
            self.places[at].arm(script);
        }
    }

    /// The circuit is cut, void where it is.
    fn down(&mut self, line: u32, one: SiteId, other: SiteId) -> Result<(), NoMemory>
        ensures { OnOk result (FollowsWithin (λ c w. unless_void line (is_cut w one other) (cuts_circuit one other) w) (state_of self.old) (state_of self.new)) }
    {
        if self.cuts.is_cut(one, other) {
            self.void(line)?;
            return Ok(());
        }
        self.cuts.cut(one, other)?;
        Ok(())
    }

    /// The circuit is mended, void where it isn't cut.
    fn up(&mut self, line: u32, one: SiteId, other: SiteId) -> Result<(), NoMemory>
        ensures { OnOk result (FollowsWithin (λ c w. unless_void line (not (is_cut w one other)) (mends_circuit one other) w) (state_of self.old) (state_of self.new)) }
    {
        if !self.cuts.is_cut(one, other) {
            self.void(line)?;
            return Ok(());
        }
        self.cuts.mend(one, other);
        Ok(())
    }

    /// Does a line that asks no call. The line stays with the caller, so that no arm has it to drop.
    fn act_uncalled(&mut self, number: u32, line: &Line) -> Result<(), WorldFault>
        requires { (site process : ℕ) (call : Call) → line.now ≡ Line.Call site process call → ⊥ }
        ensures step { OnOk result (FollowsWithin (λ c w. act c number line.now w) (state_of self.old) (state_of self.new)) }
        ensures fault { IfErr result (MayCome line.now) }
        ensures fit { IfErr result (WantsMemoryWithin (λ c w. CanDo c number line.now w) (state_of self.old)) }
    {
        match line {
            Line::Call { .. } => unreachable!(),
            Line::Deliver { packet } => self.deliver(number, *packet),
            Line::Lose { packet } => {
                self.lose(number, *packet)?;
                Ok(())
            }
            Line::Tick { site } => self.stir(number, *site, SiteEvent::Tick),
            Line::Down { one, other } => {
                self.down(number, *one, *other)?;
                Ok(())
            }
            Line::Up { one, other } => {
                self.up(number, *one, *other)?;
                Ok(())
            }
            Line::Part { site } => self.leave(number, *site, SiteEvent::Part),
            Line::Merge { site } => self.stir(number, *site, SiteEvent::Merge),
            Line::GiveUp { site } => self.leave(number, *site, SiteEvent::GiveUp),
            Line::Stop { site } => {
                self.stop(number, *site)?;
                Ok(())
            }
            Line::ArmStop { site, calls, leave } => {
                let how = CallCut::Stops { leave: *leave };
                self.arm(DiskScript {
                    site: *site,
                    left: *calls,
                    how,
                });
                Ok(())
            }
            Line::ArmFail { site, calls } => {
                let how = CallCut::Fails;
                self.arm(DiskScript {
                    site: *site,
                    left: *calls,
                    how,
                });
                Ok(())
            }
            Line::Boot { site } => {
                self.boot(number, *site)?;
                Ok(())
            }
            Line::Settle { most } => self.settle(number, *most),
            Line::Pending => {
                self.list_pending(number)?;
                Ok(())
            }
        }
    }

    /// Does a line, where no limit was passed.
    pub(crate) fn act(&mut self, number: u32, line: Line) -> Result<(), WorldFault>
        ensures step { OnOk result (FollowsWithin (λ c w. act c number line w) (state_of self.old) (state_of self.new)) }
        ensures fault { IfErr result (MayCome line) }
        ensures fit { IfErr result (WantsMemoryWithin (λ c w. CanDo c number line w) (state_of self.old)) }
    {
        match line {
            Line::Call {
                site,
                process,
                call,
            } => self.call(number, site, process, call),
            uncalled => self.act_uncalled(number, &uncalled),
        }
    }
}
