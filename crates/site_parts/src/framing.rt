// The frame in which an event is served.
ghost use Rattle.std.specs.Prelude.{◌≡◌};
ghost use Rattle.role_steps.specs.Epochs.{frame_in};
ghost use Rattle.site_parts.specs.Framing.{outside};

use locus_ids::sizes::SITES;
use locus_ids::{EpochId, Members};
use role_steps::InEpoch;
use site_frame::SiteFrame;

/// The frame is that of the epoch that a site of this boot is in.
pub fn enter(frame: &mut SiteFrame, boot: u32, epoch: &InEpoch)
    ensures { frame.new ≡ frame_in frame.old.config frame.old.me boot epoch.now }
{
    frame.boot = boot;
    frame.epoch = epoch.id;
    frame.members = epoch.members;
}

/// The frame is that of a site of this boot that is in no epoch.
pub fn stay_outside(frame: &mut SiteFrame, boot: u32)
    ensures { frame.new ≡ outside frame.old.config frame.old.me boot }
{
    frame.boot = boot;
    frame.epoch = EpochId {
        number: 0,
        site: 0,
        boot: 0,
    };
    frame.members = Members { boot: [0; SITES] };
}
