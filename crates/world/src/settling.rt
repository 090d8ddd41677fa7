ghost use Rattle.std.specs.Prelude.{IfErr, OnOk};
ghost use Rattle.role_steps.specs.Views.{Ticks, all_sites};
ghost use Rattle.the_run.specs.Worlds.{happens};
ghost use Rattle.the_run.specs.Runs.{ticks_to, delivers, settles};
ghost use Rattle.world.specs.States.{state_of};
ghost use Rattle.world.specs.Shown.{Follows, FollowsWithin};
ghost use Rattle.world.specs.Faults.{WantsMemory};
ghost use Rattle.complete_laws.specs.Lines.{CanHappen};
ghost use Rattle.complete_laws.specs.MomentEvents.{WhereDelivered, WhereTicks};

use crate::{World, WorldFault};
use epoch_rules::site_at;
use locus_ids::SiteId;
use locus_ids::sizes::SITES;
use settle_rounds::{RoundTurn, round_turn};
use site_place::SiteEvent;
use trace_book::Record;

impl World {
    /// A site ticks, where it is there and runs.
    fn tick(&mut self, line: u32, site: SiteId) -> Result<(), WorldFault>
        ensures step { OnOk result (Follows (λ c w. happens c line site Ticks w) (state_of self.old) (state_of self.new)) }
        ensures fit { IfErr result (WantsMemory (λ c w. CanHappen c site Ticks w) (state_of self.old)) }
    {
        // Most sites of a run aren't there: no event is made for them.
        let at = usize::from(site.get()) - 1;
        if at >= self.places.len() {
            return Ok(());
        }
        self.happen(line, site, SiteEvent::Tick)?;
        Ok(())
    }

    /// Each running site ticks, in ascending order.
    fn tick_all(&mut self, line: u32) -> Result<(), WorldFault>
        ensures step { OnOk result (Follows (λ c w. ticks_to c line all_sites w) (state_of self.old) (state_of self.new)) }
        ensures fit { IfErr result (WantsMemory (λ c w. WhereTicks (CanHappen c) c line all_sites w) (state_of self.old)) }
    {
        for at in 0..SITES {
            self.tick(line, site_at(at))?;
        }
        Ok(())
    }

    /// Packets are delivered, the lowest-numbered first, so often at most as the budget says.
    fn deliver_all(&mut self, line: u32, budget: u32) -> Result<(), WorldFault>
        ensures step { OnOk result (Follows (λ c w. delivers c line budget w) (state_of self.old) (state_of self.new)) }
        ensures fit { IfErr result (WantsMemory (λ c w. WhereDelivered (CanHappen c) c line budget w) (state_of self.old)) }
    {
        let mut left = budget;
        loop {
            match round_turn(left, self.next()) {
                RoundTurn::Delivers(number) => {
                    self.arrive(line, number)?;
                    left -= 1;
                }
                RoundTurn::Ends => return Ok(()),
                RoundTurn::EndsByBudget => {
                    self.tell(line, Record::Budget)?;
                    return Ok(());
                }
            }
        }
    }

    /// A round: each running site ticks, and then packets are delivered.
    pub(crate) fn settle(&mut self, line: u32, budget: u32) -> Result<(), WorldFault>
        ensures step { OnOk result (FollowsWithin (λ c w. settles c line budget w) (state_of self.old) (state_of self.new)) }
        ensures fit { IfErr result (WantsMemory (λ c w. WhereTicks (CanHappen c) c line all_sites w × WhereDelivered (CanHappen c) c line budget (ticks_to c line all_sites w)) (state_of self.old)) }
    {
        self.tick_all(line)?;
        self.deliver_all(line, budget)?;
        Ok(())
    }
}
