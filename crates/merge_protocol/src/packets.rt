ghost use Rattle.std.specs.Prelude.{◌≡◌};
ghost use Rattle.role_steps.specs.Epochs.{forming, poll_packet, install_packet};

use epoch_rules::boot_in;
use locus_ids::{EpochId, Links, SiteId};
use role_steps::InEpoch;
use wire_messages::{Body, Packet};

/// Who sent a packet that forms an epoch, and the id of that epoch.
#[derive(Clone, Copy)]
pub struct FormingHeader {
    pub from: SiteId,
    pub from_boot: u32,
    pub id: EpochId,
}

/// The site that sends, with its boot number.
#[derive(Drop)]
pub struct Sender {
    pub me: SiteId,
    pub boot: u32,
}

impl Sender {
    /// A packet that forms the epoch of this id.
    pub fn forming(&self, id: EpochId, to: SiteId, to_boot: u32, body: Body) -> Packet
        ensures { result ≡ forming self.now.me self.now.boot id to to_boot body }
    {
        Packet {
            from: self.me,
            from_boot: self.boot,
            to,
            to_boot,
            epoch: id,
            body,
        }
    }

    /// The packet that polls a site.
    pub fn poll_packet(&self, id: EpochId, polled: &Links, to: SiteId) -> Packet
        ensures { result ≡ poll_packet self.now.me self.now.boot id polled.now to }
    {
        self.forming(id, to, boot_in(&polled.boot, to), Body::Poll)
    }

    /// The packet that tells a member whom the epoch has.
    pub fn install_packet(&self, epoch: &InEpoch, to: SiteId) -> Packet
        ensures { result ≡ install_packet self.now.me self.now.boot epoch.now.id epoch.now.members to }
    {
        let body = Body::Install {
            members: epoch.members,
        };
        self.forming(epoch.id, to, boot_in(&epoch.members.boot, to), body)
    }
}
