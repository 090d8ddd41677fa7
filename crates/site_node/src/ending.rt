// How an event ends.
ghost use Rattle.std.specs.Prelude.{◌≡◌, ◌≢◌, None, Err, IfErr, OnOk};
ghost use Rattle.site_packs.specs.Packs.{Stand};
ghost use Rattle.the_run.specs.Steps.{ends_event};
ghost use Rattle.role_steps.specs.Epochs.{passes_over};
ghost use Rattle.site_node.specs.Fitting.{HasInodes};
ghost use Rattle.site_node.specs.Views.{Moves, view_of};
ghost use Rattle.site_node.specs.Mending.{mends_at};
ghost use Rattle.site_node.specs.Writing.{EventWrites};
ghost use Rattle.site_parts.specs.declared.fault.NodeFault.TheVariants.{NoNumber, Unfit};

use crate::SiteNode;
use disk_model::Disk;
use locus_ids::Links;
use site_parts::{NodeFault, enter, start_mends};
use wire_messages::Outbox;

impl SiteNode {
    /// Sites are passed over, a round whose answers are all there is decided, and mends start.
    pub(crate) fn end_event<D: Disk>(
        &mut self,
        disk: &mut D,
        links: &Links,
        out: &mut Outbox,
    ) -> Result<(), NodeFault>
        requires { Stand self.old.packs (D.moment disk.old) }
        ensures step { OnOk result (Moves (ends_event self.old.frame.config self.old.frame.me links.now) self.old (D.moment disk.old) self.new (D.moment disk.new) out.old out.new) }
        ensures disk { EventWrites None self.old.packs (D.moment disk.old) (D.moment disk.new) out.old out.new result }
        ensures numbered { IfErr result (λ fault. fault ≢ NoNumber) }
        ensures unfit { result ≡ Err Unfit → HasInodes (passes_over self.old.frame.config self.old.frame.me links.now (view_of self.old (D.moment disk.old).seen)).view.tables → ⊥ }
    {
        self.pass_over(links, out)?;
        self.start_mends(disk, out)
    }

    /// Mends start in the groups that the site serves.
    fn start_mends<D: Disk>(&mut self, disk: &mut D, out: &mut Outbox) -> Result<(), NodeFault>
        requires { Stand self.old.packs (D.moment disk.old) }
        ensures step { OnOk result (Moves (mends_at self.old.frame.config self.old.frame.me) self.old (D.moment disk.old) self.new (D.moment disk.new) out.old out.new) }
        ensures disk { EventWrites None self.old.packs (D.moment disk.old) (D.moment disk.new) out.old out.new result }
        ensures numbered { IfErr result (λ fault. fault ≢ NoNumber) }
        ensures unfit { result ≡ Err Unfit → HasInodes self.old.tables → ⊥ }
    {
        let Some(epoch) = self.epochs.epoch() else {
            return Ok(());
        };
        enter(&mut self.frame, self.epochs.boot(), &epoch);
        start_mends(
            self.alloc,
            self.tables.as_slice(),
            &self.frame,
            &self.packs,
            &mut self.users,
            disk,
            out,
        )?;
        Ok(())
    }
}
