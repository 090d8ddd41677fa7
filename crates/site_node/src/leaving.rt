// What the site does where it leaves its epoch.
ghost use Rattle.std.specs.Prelude.{◌≡◌, [], OnOk};
ghost use Rattle.role_steps.specs.Epochs.{leaves};
ghost use Rattle.merge_protocol.specs.Parts.{rest_leaves};
ghost use Rattle.site_node.specs.Views.{Works};

use crate::SiteNode;
use locus_ids::{EpochId, NoMemory};
use merge_protocol::leaving_by_parts;
use wire_messages::Outbox;

impl SiteNode {
    /// The site gives up its epoch, if it is in one.
    pub(crate) fn leave(&mut self, out: &mut Outbox) -> Result<(), NoMemory>
        ensures { OnOk result (Works (leaves self.old.frame.me) self.old self.new out.old out.new) }
    {
        leaving_by_parts();
        let me = self.site();
        let left = self.epochs.leave(me, out)?;
        self.leave_rest(left, out)?;
        Ok(())
    }

    /// The other roles drop what they have of the epoch that is left, and calls that wait are answered.
    pub(crate) fn leave_rest(
        &mut self,
        left: Option<EpochId>,
        out: &mut Outbox,
    ) -> Result<(), NoMemory>
        ensures { OnOk result (Works (rest_leaves self.old.frame.me left) self.old self.new out.old out.new) }
    {
        let Some(epoch) = left else {
            return Ok(());
        };
        let me = self.site();
        let boot = self.boot();
        self.users.leave(me, boot, epoch, out)?;
        self.drop_rest();
        Ok(())
    }

    /// Nothing is synchronized, open here or pulled any more.
    fn drop_rest(&mut self)
        ensures { self.new ≡ record self.old { tables = []; store = record { instances = []; steps = [] }; pulls = [] } }
    {
        self.tables.clear();
        self.store.leave();
        self.pulls.leave();
    }
}
