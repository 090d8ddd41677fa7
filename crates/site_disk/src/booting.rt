// A disk is booted.
ghost use Rattle.std.specs.Prelude.{◌≡◌, ◌+◌, ◌^◌, ◌<◌, ◌≤◌, ℕ, [], length, OnOk, OnErr, IfOk, IfErr};
ghost use Rattle.disk_model.specs.Disk.{IsSettled, HasCause, Exactly};
ghost use Rattle.disk_model.specs.Images.{Torn, Same};
ghost use Rattle.disk_model.specs.Moments.{LeavesOnly};
ghost use Rattle.site_packs.specs.Copies.{copies_on};
ghost use Rattle.site_packs.specs.Cutting.{both_open_on};
ghost use Rattle.site_packs.specs.Packs.{Stand, groups_of, groups_at};
ghost use Rattle.site_packs.specs.Mounting.{AreSound, mount_calls};
ghost use Rattle.site_label.specs.Label.{HasBoot};
ghost use Rattle.site_label.specs.Raising.{IsRaised};
ghost use Rattle.site_disk.specs.Image.{disk_length, label_on, one_half};
ghost use Rattle.site_disk.specs.Boots.{MayBeLeft, IsCause, IsPassing, IsEarly, IsCutBoot, boot_calls, disk_answer, TellsBoot};

use crate::{BootFault, SiteDisk};
use disk_model::Disk;
use locus_ids::{Config, SiteId};
use site_label::Label;
use site_packs::SitePacks;
use std::alloc::Global;

impl SiteDisk {
    /// Boots a site from its disk: raises the boot number of its label by one, and then mounts its packs, by group ascending. It
    /// gives the raised number and the packs.
    pub fn boot<D: Disk>(
        alloc: Global,
        disk: &mut D,
        config: &Config,
        site: SiteId,
    ) -> Result<(u32, SitePacks), BootFault>
        requires settled { IsSettled (D.moment disk.old) }
        requires long { disk_length config.now site ≤ length (D.moment disk.old).seen }

        // The label has the raised number, in one half. The packs stand, and their copies are those that the disk had.
        ensures raised { IfOk result (λ booted. IsRaised site (D.moment disk.old).seen booted.0) }
        ensures label { IfOk result (λ booted. label_on (D.moment disk.new).seen ≡ one_half booted.0) }
        ensures boot { IfOk result (λ booted. HasBoot site booted.0 (D.moment disk.new).seen) }
        ensures copies { OnOk result (copies_on (groups_at config.now site) (D.moment disk.new).seen ≡ copies_on (groups_at config.now site) (D.moment disk.old).seen) }
        ensures none { OnOk result (both_open_on (groups_at config.now site) (D.moment disk.new).seen ≡ []) }
        ensures stands { IfOk result (λ booted. Stand booted.1 (D.moment disk.new)) }
        ensures site { IfOk result (λ booted. booted.1.site ≡ site) }
        ensures groups { IfOk result (λ booted. groups_of booted.1 ≡ groups_at config.now site) }
        ensures sound { OnOk result (AreSound site (groups_at config.now site) (D.moment disk.old).seen) }

        // Whenever a crash comes, the number is the one from before or the raised one, and nothing is lost.
        ensures any_moment { AreSound site (groups_at config.now site) (D.moment disk.old).seen → LeavesOnly (D.moment disk.old) (D.moment disk.new) (MayBeLeft site (groups_at config.now site) (D.moment disk.old).seen) }

        // Each other answer has its cause on the disk, but a failing disk and want of memory.
        ensures fault { IfErr result (λ fault. IsCause site (groups_at config.now site) (D.moment disk.old).seen fault) }
        ensures boots { (boot : ℕ) → HasBoot site boot (D.moment disk.old).seen → boot + 1 < 2 ^ 32 → AreSound site (groups_at config.now site) (D.moment disk.old).seen → IfErr result (λ fault. IsPassing fault) }
        ensures early { IfErr result (λ fault. IsEarly fault → LeavesOnly (D.moment disk.old) (D.moment disk.new) (Same (D.moment disk.old).seen)) }

        // The calls are those of the label's boot, and two for each losing gate.
        ensures cause { HasCause (D.moment disk.old).faults (D.moment disk.new).faults (disk_answer result) }
        ensures tells { TellsBoot (boot_calls (groups_at config.now site) (D.moment disk.old).seen) (D.moment disk.old).passing (D.moment disk.new).passing result }

        // Where it tells so, a crash as it cuts off the call leaves just this.
        ensures how { (D.moment disk.new).how ≡ (D.moment disk.old).how }
        ensures cut { (before passed : ℕ) → HasBoot site before (D.moment disk.old).seen → (D.moment disk.old).passing ≡ Exactly passed → OnErr (disk_answer result) (IsCutBoot site (groups_at config.now site) (D.moment disk.old).how before passed (D.moment disk.old).seen (D.moment disk.new).left) }
    {
        let boot = Label::boot(disk, site)?;
        let packs = SitePacks::mount(alloc, config, site, disk)?;
        Ok((boot, packs))
    }
}
