ghost use Rattle.std.specs.Prelude.{◌≡◌, ◌++◌, map, OnOk};
ghost use Rattle.role_steps.specs.Epochs.{poll_packet, poll_repeats, install_repeats, unanswered};
ghost use Rattle.merge_protocol.specs.Parts.{alone};

use crate::EpochState;
use crate::joining::send_installs;
use crate::packets::Sender;
use epoch_rules::site_at;
use locus_ids::sizes::SITES;
use locus_ids::{NoMemory, SiteId};
use partition_protocol::PollRound;
use role_steps::InEpoch;
use wire_messages::Outbox;

impl EpochState {
    /// Sends again each poll of the undecided round that isn't answered, ascending by site.
    pub fn repeat_polls(&self, me: SiteId, out: &mut Outbox) -> Result<(), NoMemory>
        ensures packets { OnOk result (out.new.packets ≡ out.old.packets ++ poll_repeats me (alone self.now) self.now.round) }
        ensures records { OnOk result (out.new.records ≡ out.old.records) }
    {
        let sender = Sender {
            me,
            boot: self.boot,
        };
        match &self.round {
            Some(round) => repeat_polls(&sender, round, out),
            None => Ok(()),
        }
    }

    /// Sends again each install of this epoch that isn't answered, ascending by site.
    pub fn repeat_installs(
        &self,
        me: SiteId,
        epoch: &InEpoch,
        out: &mut Outbox,
    ) -> Result<(), NoMemory>
        ensures packets { OnOk result (out.new.packets ≡ out.old.packets ++ install_repeats me (alone self.now) epoch.now) }
        ensures records { OnOk result (out.new.records ≡ out.old.records) }
    {
        let sender = Sender {
            me,
            boot: self.boot,
        };
        send_installs(&sender, epoch, self.installs.as_slice(), out)
    }
}

fn repeat_polls(sender: &Sender, round: &PollRound, out: &mut Outbox) -> Result<(), NoMemory>
    ensures packets { OnOk result (out.new.packets ≡ out.old.packets ++ map (poll_packet sender.now.me sender.now.boot round.now.id round.now.polled) (unanswered round.now)) }
    ensures records { OnOk result (out.new.records ≡ out.old.records) }
{
    let id = round.id();
    let polled = round.polled();
    for place in 0..SITES {
        let site = site_at(place);
        if round.is_awaited(site) {
            out.send(sender.poll_packet(id, &polled, site))?;
        }
    }
    Ok(())
}
