// Which packets a site drops.
ghost use Rattle.std.specs.Prelude.{◌≡◌};
ghost use Rattle.epoch_rules.specs.of_role_steps.Views.{SiteView};
ghost use Rattle.the_run.specs.Steps.{is_forming, is_framed, is_dropped};

use epoch_rules::role_steps::InEpoch;
use epoch_rules::{boot_in, same_epoch};
use wire_messages::{Body, Packet};

/// The packet forms an epoch.
fn is_forming(packet: &Packet) -> bool
    ensures { result ≡ is_forming packet.now }
{
    match &packet.body {
        Body::Poll => true,
        Body::Promise { .. } => true,
        Body::Refuse { .. } => true,
        Body::Install { .. } => true,
        Body::Joined => true,
        _ => false,
    }
}

/// The packet's epoch is the site's, and its sender is a member with its boot number.
fn is_framed(packet: &Packet, epoch: &Option<InEpoch>) -> bool
    ensures { result ≡ is_framed packet.now epoch.now }
{
    match epoch {
        None => false,
        Some(epoch) => {
            same_epoch(epoch.id, packet.epoch)
                && boot_in(&epoch.members.boot, packet.from) == packet.from_boot
        }
    }
}

/// A packet to another boot of the site, or of another epoch, is dropped: a site of this boot and epoch doesn't read it.
pub fn is_dropped(packet: &Packet, boot: u32, epoch: &Option<InEpoch>) -> bool
    ensures { (v : SiteView) → v.boot ≡ boot → v.epoch ≡ epoch.now → result ≡ is_dropped packet.now v }
{
    let is_read = packet.to_boot == boot && (is_forming(packet) || is_framed(packet, epoch));
    !is_read
}
