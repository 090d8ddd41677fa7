// The new packs of a site.
ghost use Rattle.std.specs.Prelude.{◌≡◌, ◌+◌, ◌*◌, ◌≤◌, ◌<◌, ◌^◌, ℕ, true, length, slice_index, OnOk};
ghost use Rattle.locus_ids.specs.Sites.{has};
ghost use Rattle.disk_model.specs.Disk.{Goes, IsSettled, HasCause};
ghost use Rattle.disk_model.specs.Images.{Torn};
ghost use Rattle.disk_model.specs.Moments.{TellsMany};
ghost use Rattle.pack_layout.specs.Layout.{layout, area_length, area_at};
ghost use Rattle.pack_slots.specs.Format.{format_calls, IsNew};
ghost use Rattle.site_packs.specs.Copies.{copies_on};
ghost use Rattle.site_packs.specs.Packs.{groups_at, areas_end};
ghost use Rattle.site_packs.specs.Mounting.{AreSound, new_copies, mount_calls};
ghost use Rattle.site_packs.specs.Formatting.{HasRootAlone, AreNew, stored_among};

use crate::SitePacks;
use disk_model::{Disk, DiskFault};
use locus_ids::{Config, SiteId, Sites};
use pack_layout::area_at;

impl SitePacks {
    /// Makes the packs of a site on its disk, one for each group that the cluster has it store: each has the empty root
    /// directory, and nothing else. What stands before the packs stays. A mount then finds them.
    pub fn format<D: Disk>(config: &Config, site: SiteId, disk: &mut D) -> Result<(), DiskFault>
        requires area { areas_end (length (groups_at config.now site)) ≤ length (D.moment disk.old).seen }
        ensures copies { OnOk result (copies_on (groups_at config.now site) (D.moment disk.new).seen ≡ new_copies config.now site) }
        ensures sound { OnOk result (AreSound site (groups_at config.now site) (D.moment disk.new).seen) }
        ensures shut { OnOk result (mount_calls (groups_at config.now site) (D.moment disk.new).seen ≡ 0) }
        ensures outside { OnOk result (Torn layout.label_length (area_length * length (groups_at config.now site)) (D.moment disk.old).seen (D.moment disk.new).seen) }
        ensures durable { OnOk result (IsSettled (D.moment disk.old) → IsSettled (D.moment disk.new)) }
        ensures crash { Goes (Torn layout.label_length (area_length * length (groups_at config.now site))) (D.moment disk.old) (D.moment disk.new) }
        ensures cause { HasCause (D.moment disk.old).faults (D.moment disk.new).faults result }
        ensures tells { TellsMany (format_calls * length (groups_at config.now site)) (D.moment disk.old).passing (D.moment disk.new).passing result }
    {
        format_behind(config, site, disk, 0, &[0, 1, 2, 3])
    }
}

/// Makes the packs of those of these groups that the site stores, from the nth area on.
fn format_behind<D: Disk>(
    config: &Config,
    site: SiteId,
    disk: &mut D,
    nth: u8,
    groups: &[u8],
) -> Result<(), DiskFault>
    requires few { nth + length groups.now ≤ 4 }
    requires known { (k : ℕ) → slice_index groups.now k ≤ 3 }
    requires area { areas_end (nth + length (stored_among config.now site groups.now)) ≤ length (D.moment disk.old).seen }
    ensures made { OnOk result (AreNew nth config.now site (stored_among config.now site groups.now) (D.moment disk.new).seen) }
    ensures outside { OnOk result (Torn (area_at nth) (area_length * length (stored_among config.now site groups.now)) (D.moment disk.old).seen (D.moment disk.new).seen) }
    ensures durable { OnOk result (IsSettled (D.moment disk.old) → IsSettled (D.moment disk.new)) }
    ensures crash { Goes (Torn (area_at nth) (area_length * length (stored_among config.now site groups.now))) (D.moment disk.old) (D.moment disk.new) }
    ensures cause { HasCause (D.moment disk.old).faults (D.moment disk.new).faults result }
    ensures tells { TellsMany (format_calls * length (stored_among config.now site groups.now)) (D.moment disk.old).passing (D.moment disk.new).passing result }
{
    if groups.is_empty() {
        return Ok(());
    }
    let set = config.packs[usize::from(groups[0])];
    if !set.has(site) {
        return format_behind(config, site, disk, nth, &groups[1..]);
    }
    format_pack(disk, area_at(nth), groups[0], site, set)?;
    format_behind(config, site, disk, nth + 1, &groups[1..])
}

/// Makes one pack.
fn format_pack<D: Disk>(
    disk: &mut D,
    base: u32,
    group: u8,
    site: SiteId,
    set: Sites,
) -> Result<(), DiskFault>
    requires area { base + area_length ≤ length (D.moment disk.old).seen }
    requires stored { has set site ≡ true }
    ensures made { OnOk result (HasRootAlone base group site set (D.moment disk.new).seen) }
    ensures outside { OnOk result (Torn base area_length (D.moment disk.old).seen (D.moment disk.new).seen) }
    ensures durable { OnOk result (IsSettled (D.moment disk.new)) }
    ensures crash { Goes (Torn base area_length) (D.moment disk.old) (D.moment disk.new) }
    ensures cause { HasCause (D.moment disk.old).faults (D.moment disk.new).faults result }
    ensures tells { TellsMany format_calls (D.moment disk.old).passing (D.moment disk.new).passing result }
{
    pack_slots::format(disk, base, group, site, set)?;
    Ok(())
}
