// A new disk.
ghost use Rattle.std.specs.Prelude.{◌≡◌, ◌+◌, ◌*◌, ◌≤◌, [], length, OnOk, IfOk};
ghost use Rattle.disk_model.specs.Disk.{Goes, IsSettled, HasCause};
ghost use Rattle.disk_model.specs.Images.{Torn};
ghost use Rattle.site_packs.specs.Copies.{copies_on};
ghost use Rattle.site_packs.specs.Cutting.{both_open_on};
ghost use Rattle.site_packs.specs.Packs.{Stand, groups_of, groups_at};
ghost use Rattle.disk_model.specs.Moments.{LeavesOnly};
ghost use Rattle.site_packs.specs.Mounting.{AreSound, KeepsCopies, new_copies, mount_calls};
ghost use Rattle.site_label.specs.Label.{HasBoot};
ghost use Rattle.pack_slots.specs.Format.{format_calls};
ghost use Rattle.site_disk.specs.Image.{disk_length, label_on, one_half};
ghost use Rattle.site_disk.specs.Formats.{disk_answer, TellsFormat};

use crate::{FormatFault, SiteDisk};
use disk_model::Disk;
use locus_ids::{Config, SiteId};
use site_label::Label;
use site_packs::{MountFault, SitePacks};
use std::alloc::Global;

impl SiteDisk {
    /// Makes the disk of a site: its label, with the boot number 1, and its packs, each with the empty root directory. They are
    /// mounted. What stands behind them stays.
    pub fn format<D: Disk>(
        alloc: Global,
        disk: &mut D,
        config: &Config,
        site: SiteId,
    ) -> Result<SitePacks, FormatFault>
        requires { disk_length config.now site ≤ length (D.moment disk.old).seen }
        ensures label { OnOk result (label_on (D.moment disk.new).seen ≡ one_half 1) }
        ensures boot { OnOk result (HasBoot site 1 (D.moment disk.new).seen) }
        ensures copies { OnOk result (copies_on (groups_at config.now site) (D.moment disk.new).seen ≡ new_copies config.now site) }
        ensures stands { IfOk result (λ packs. Stand packs (D.moment disk.new)) }
        ensures site { IfOk result (λ packs. packs.site ≡ site) }
        ensures groups { IfOk result (λ packs. groups_of packs ≡ groups_at config.now site) }
        ensures none { OnOk result (both_open_on (groups_at config.now site) (D.moment disk.new).seen ≡ []) }
        ensures sound { OnOk result (AreSound site (groups_at config.now site) (D.moment disk.new).seen) }
        ensures outside { OnOk result (Torn 0 (disk_length config.now site) (D.moment disk.old).seen (D.moment disk.new).seen) }
        ensures crash { Goes (Torn 0 (disk_length config.now site)) (D.moment disk.old) (D.moment disk.new) }

        // The label takes a write and a sync, each pack so many as its format.
        ensures cause { HasCause (D.moment disk.old).faults (D.moment disk.new).faults (disk_answer result) }
        ensures tells { TellsFormat (2 + format_calls * length (groups_at config.now site)) (D.moment disk.old).passing (D.moment disk.new).passing result }
    {
        Label::format(disk, site)?;
        SitePacks::format(config, site, disk)?;
        mount_new(alloc, disk, config, site)
    }
}

/// Mounts packs that are sound, as those of a format are.
fn mount_new<D: Disk>(
    alloc: Global,
    disk: &mut D,
    config: &Config,
    site: SiteId,
) -> Result<SitePacks, FormatFault>
    requires settled { IsSettled (D.moment disk.old) }
    requires long { disk_length config.now site ≤ length (D.moment disk.old).seen }
    requires sound { AreSound site (groups_at config.now site) (D.moment disk.old).seen }
    ensures stands { IfOk result (λ packs. Stand packs (D.moment disk.new)) }
    ensures site { IfOk result (λ packs. packs.site ≡ site) }
    ensures groups { IfOk result (λ packs. groups_of packs ≡ groups_at config.now site) }
    ensures none { OnOk result (both_open_on (groups_at config.now site) (D.moment disk.new).seen ≡ []) }
    ensures any_moment { LeavesOnly (D.moment disk.old) (D.moment disk.new) (KeepsCopies site (groups_at config.now site) (D.moment disk.old).seen) }
    ensures cause { HasCause (D.moment disk.old).faults (D.moment disk.new).faults (disk_answer result) }
    ensures tells { TellsFormat (mount_calls (groups_at config.now site) (D.moment disk.old).seen) (D.moment disk.old).passing (D.moment disk.new).passing result }
{
    match SitePacks::mount(alloc, config, site, disk) {
        Ok(packs) => Ok(packs),
        Err(MountFault::Disk) => Err(FormatFault::Disk),
        Err(MountFault::NoMemory) => Err(FormatFault::NoMemory),
        Err(_) => unreachable!(),
    }
}
