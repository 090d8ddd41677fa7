ghost use Rattle.std.specs.Prelude.{◌≡◌, ◌++◌, OnOk};
ghost use Rattle.role_steps.specs.Requests.{users_repeats};
ghost use Rattle.role_steps.specs.Using.{users_leave};
ghost use Rattle.site_frame.specs.Printed.{printed};

use crate::users::UsingSite;
use locus_ids::{EpochId, NoMemory, SiteId};
use site_frame::SiteFrame;
use waiting_calls::{answer_changed, send_request};
use wire_messages::Outbox;

impl UsingSite {
    /// The epoch is left: each waiting call is answered so, in order of process, and the instances are gone. Open
    /// descriptors stay, and are stale from now on.
    pub fn leave(
        &mut self,
        me: SiteId,
        boot: u32,
        epoch: EpochId,
        out: &mut Outbox,
    ) -> Result<(), NoMemory>
        ensures view { OnOk result (self.new ≡ (users_leave me boot epoch self.old).view) }
        ensures packets { OnOk result (out.new.packets ≡ out.old.packets) }
        ensures records { OnOk result (out.new.records ≡ out.old.records ++ printed (users_leave me boot epoch self.old).told) }
    {
        answer_changed(me, boot, epoch, &mut self.waiting, out)?;
        self.instances.clear();
        self.hopeless.clear();
        Ok(())
    }

    /// A tick: the current request of each waiting call is sent again, by process.
    pub fn repeats(&self, frame: &SiteFrame, out: &mut Outbox) -> Result<(), NoMemory>
        ensures packets { OnOk result (out.new.packets ≡ out.old.packets ++ users_repeats frame.now self.now) }
        ensures records { OnOk result (out.new.records ≡ out.old.records) }
    {
        let rows = self.waiting.as_slice();
        for waiting in rows {
            send_request(frame, &waiting.caller, &waiting.asking, out)?;
        }
        Ok(())
    }
}
