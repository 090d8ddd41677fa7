// What the site does where it joins an epoch.
ghost use Rattle.std.specs.Prelude.{◌≡◌, ◌++◌, ℕ, List, OnOk};
ghost use Rattle.role_steps.specs.Epochs.{all_reports, decides, joins, passes_over};
ghost use Rattle.site_packs.specs.Packs.{AreShown};
ghost use Rattle.site_node.specs.Views.{Works, view_of};

use crate::SiteNode;
use locus_ids::{Links, NoMemory};
use merge_protocol::passing_by_parts;
use role_steps::InEpoch;
use site_parts::site_tables::start_tables;
use site_parts::{enter, join_epoch, report_groups};
use wire_messages::Outbox;

impl SiteNode {
    /// Sites that aren't reached are passed over in the round of polls, and the epoch that it decides then is joined and sent to
    /// its members.
    pub(crate) fn pass_over(&mut self, links: &Links, out: &mut Outbox) -> Result<(), NoMemory>
        ensures { OnOk result (Works (passes_over self.old.frame.config self.old.frame.me links.now) self.old self.new out.old out.new) }
    {
        passing_by_parts();
        let me = self.site();
        match self.epochs.pass_over(me, links) {
            None => Ok(()),
            Some(epoch) => {
                self.decide(epoch, out)?;
                Ok(())
            }
        }
    }

    /// The initiator joins at once, and sends an install to each other member.
    fn decide(&mut self, epoch: InEpoch, out: &mut Outbox) -> Result<(), NoMemory>
        ensures { OnOk result (Works (decides self.old.frame.config self.old.frame.me epoch.id epoch.members) self.old self.new out.old out.new) }
    {
        self.join(epoch, out)?;
        let me = self.site();
        self.epochs.send_installs(me, &epoch, out)?;
        Ok(())
    }

    /// The site joins the epoch: it has the tables of the groups that it serves there, and reports its packs.
    pub(crate) fn join(&mut self, epoch: InEpoch, out: &mut Outbox) -> Result<(), NoMemory>
        ensures { OnOk result (Works (joins self.old.frame.config self.old.frame.me epoch.id epoch.members) self.old self.new out.old out.new) }
    {
        join_epoch(&mut self.epochs, &self.frame, epoch, out)?;
        enter(&mut self.frame, self.epochs.boot(), &epoch);
        start_tables(self.alloc, &mut self.tables, &self.frame)?;
        self.report_all(out)?;
        Ok(())
    }

    /// Each pack whose report isn't answered is reported, in the epoch of the frame.
    pub(crate) fn report_all(&self, out: &mut Outbox) -> Result<(), NoMemory>
        ensures packets { OnOk result ((image : List ℕ) → AreShown self.now.packs.packs image → out.new.packets ≡ out.old.packets ++ all_reports self.now.frame (view_of self.now image)) }
        ensures records { OnOk result (out.new.records ≡ out.old.records) }
    {
        report_groups(
            self.epochs.reports(),
            &self.store,
            &self.packs,
            &self.frame,
            out,
        )?;
        Ok(())
    }
}
