// What a site sends again at a tick, class by class.
ghost use Rattle.std.specs.Prelude.{◌≡◌, ◌≢◌, ℕ, List, Err, OnOk};
ghost use Rattle.std.specs.List.{AllByRecursion, flat_map};
ghost use Rattle.packet_order.specs.Counts.{FitsIfCounted};
ghost use Rattle.role_steps.specs.Epochs.{all_reports};
ghost use Rattle.role_steps.specs.declared.rounds.InEpoch.{InEpoch};
ghost use Rattle.role_steps.specs.Pulling.{pull_repeats};
ghost use Rattle.role_steps.specs.Reports.{sync_repeats};
ghost use Rattle.role_steps.specs.Requests.{users_repeats};
ghost use Rattle.role_steps.specs.Storage.{store_repeats};
ghost use Rattle.site_packs.specs.Packs.{AreShown};
ghost use Rattle.the_run.specs.Steps.{in_order, repeats, repeats_inside};
ghost use Rattle.site_node.specs.Views.{view_of};
ghost use Rattle.site_node.specs.Repeats.{Adds, Repeats, forming_repeats, installs_again};

use crate::SiteNode;
use locus_ids::NoMemory;
use packet_order::{Dispatch, OrderFault};
use role_steps::InEpoch;
use site_parts::enter;
use site_parts::site_tables::repeat_notices;
use wire_messages::Outbox;

impl SiteNode {
    /// Sends again what isn't answered.
    pub(crate) fn repeat(&mut self, out: &mut Dispatch) -> Result<(), OrderFault>
        ensures adds { OnOk result (Repeats self.old self.new out.old out.new) }
        ensures unfit { result ≡ Err OrderFault.Unfit → (image : List ℕ) → AreShown self.old.packs.packs image → AllByRecursion FitsIfCounted (repeats self.old.frame.config self.old.frame.me (view_of self.old image)) → ⊥ }
    {
        let epoch = self.epochs.epoch();
        self.repeat_forming(&epoch, out)?;
        let Some(epoch) = epoch else {
            return Ok(());
        };
        enter(&mut self.frame, self.epochs.boot(), &epoch);
        self.repeat_inside(out)?;
        Ok(())
    }

    /// Polls and installs.
    fn repeat_forming(&self, epoch: &Option<InEpoch>, out: &mut Dispatch) -> Result<(), OrderFault>
        ensures adds { OnOk result ((image : List ℕ) → Adds (in_order (forming_repeats self.now.frame.me (view_of self.now image) epoch.now)) out.old out.new) }
        ensures unfit { result ≡ Err OrderFault.Unfit → (image : List ℕ) → AllByRecursion FitsIfCounted (forming_repeats self.now.frame.me (view_of self.now image) epoch.now) → ⊥ }
    {
        let mut forming = Outbox::new(self.alloc);
        let me = self.site();
        self.epochs.repeat_polls(me, &mut forming)?;
        self.repeat_installs(epoch, &mut forming)?;
        out.add_in_order(forming)?;
        Ok(())
    }

    /// Installs, in an epoch.
    fn repeat_installs(&self, epoch: &Option<InEpoch>, forming: &mut Outbox) -> Result<(), NoMemory>
        ensures packets { OnOk result ((image : List ℕ) → forming.new.packets ≡ installs_again self.now.frame.me (view_of self.now image) epoch.now forming.old.packets) }
        ensures records { OnOk result (forming.new.records ≡ forming.old.records) }
    {
        match epoch {
            Some(epoch) => {
                self.epochs.repeat_installs(self.frame.me, epoch, forming)?;
                Ok(())
            }
            None => Ok(()),
        }
    }

    /// What is sent again in the epoch of the frame.
    fn repeat_inside(&self, out: &mut Dispatch) -> Result<(), OrderFault>
        ensures adds { OnOk result ((image : List ℕ) (e : InEpoch) → AreShown self.now.packs.packs image → Adds (repeats_inside self.now.frame e (view_of self.now image)) out.old out.new) }
        ensures unfit { result ≡ Err OrderFault.Unfit → (image : List ℕ) (e : InEpoch) → AreShown self.now.packs.packs image → AllByRecursion FitsIfCounted (repeats_inside self.now.frame e (view_of self.now image)) → ⊥ }
    {
        self.repeat_reports(out)?;
        self.repeat_requests(out)?;
        self.repeat_closes(out)?;
        self.repeat_pulls(out)?;
        self.repeat_notices(out)?;
        Ok(())
    }

    fn repeat_reports(&self, out: &mut Dispatch) -> Result<(), OrderFault>
        ensures adds { OnOk result ((image : List ℕ) → AreShown self.now.packs.packs image → Adds (in_order (all_reports self.now.frame (view_of self.now image))) out.old out.new) }
        ensures unfit { result ≡ Err OrderFault.Unfit → (image : List ℕ) → AreShown self.now.packs.packs image → AllByRecursion FitsIfCounted (all_reports self.now.frame (view_of self.now image)) → ⊥ }
    {
        let mut reports = Outbox::new(self.alloc);
        self.report_all(&mut reports)?;
        out.add_in_order(reports)?;
        Ok(())
    }

    fn repeat_requests(&self, out: &mut Dispatch) -> Result<(), OrderFault>
        ensures adds { OnOk result (Adds (users_repeats self.now.frame self.now.users) out.old out.new) }
        ensures fit { result ≢ Err OrderFault.Unfit }
    {
        let mut requests = Outbox::new(self.alloc);
        self.users.repeats(&self.frame, &mut requests)?;
        out.add(requests)?;
        Ok(())
    }

    fn repeat_closes(&self, out: &mut Dispatch) -> Result<(), OrderFault>
        ensures adds { OnOk result ((image : List ℕ) → Adds (in_order (store_repeats self.now.frame (view_of self.now image).store)) out.old out.new) }
        ensures unfit { result ≡ Err OrderFault.Unfit → (image : List ℕ) → AllByRecursion FitsIfCounted (store_repeats self.now.frame (view_of self.now image).store) → ⊥ }
    {
        let mut closes = Outbox::new(self.alloc);
        self.store.repeats(&self.frame, &mut closes)?;
        out.add_in_order(closes)?;
        Ok(())
    }

    fn repeat_pulls(&self, out: &mut Dispatch) -> Result<(), OrderFault>
        ensures adds { OnOk result (Adds (in_order (pull_repeats self.now.frame self.now.pulls)) out.old out.new) }
        ensures unfit { result ≡ Err OrderFault.Unfit → AllByRecursion FitsIfCounted (pull_repeats self.now.frame self.now.pulls) → ⊥ }
    {
        let mut pulls = Outbox::new(self.alloc);
        self.pulls.repeats(&self.frame, &mut pulls)?;
        out.add_in_order(pulls)?;
        Ok(())
    }

    fn repeat_notices(&self, out: &mut Dispatch) -> Result<(), OrderFault>
        ensures adds { OnOk result (Adds (in_order (flat_map (sync_repeats self.now.frame) self.now.tables)) out.old out.new) }
        ensures unfit { result ≡ Err OrderFault.Unfit → AllByRecursion FitsIfCounted (flat_map (sync_repeats self.now.frame) self.now.tables) → ⊥ }
    {
        let mut notices = Outbox::new(self.alloc);
        repeat_notices(self.tables.as_slice(), &self.frame, &mut notices)?;
        out.add_in_order(notices)?;
        Ok(())
    }
}
