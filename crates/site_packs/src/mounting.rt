// The packs of a site are found again on its disk.
ghost use Rattle.std.specs.Prelude.{◌≡◌, ◌≤◌, ◌+◌, ◌*◌, ℕ, [], ◌∷◌, ◌++◌, length, OnOk, OnErr, IfOk, IfErr};
ghost use Rattle.disk_model.specs.Disk.{IsSettled, HasCause, Exactly};
ghost use Rattle.disk_model.specs.Moments.{LeavesOnly};
ghost use Rattle.pack_slots.specs.Mounting.{IsPassing, disk_answer};
ghost use Rattle.site_packs.specs.Copies.{copies_on};
ghost use Rattle.site_packs.specs.Packs.{Stand, groups_of, groups_at, areas_end};
ghost use Rattle.site_packs.specs.Cutting.{both_open_on, IsCutMount, IsCutBehind};
ghost use Rattle.site_packs.specs.Mounting.{AreSound, AreSoundBehind, IsCause, IsCauseBehind, AreMounted, LeavesPacks, KeepsCopies, TellsMount, gates_behind, mount_calls};

use crate::groups::groups_at;
use crate::live_marks::LiveMarks;
use crate::{MountFault, SitePacks};
use disk_model::Disk;
use inode_pack::Pack;
use locus_ids::{Config, NoMemory, SiteId};
use pack_layout::area_at;
use std::alloc::Global;

impl SitePacks {
    /// Mounts all packs of a site, by group ascending. Each slot is read once, and of two open slots of an inode the one that
    /// doesn't count is closed. The first pack that doesn't mount tells why. Packs that a crash left within a format, commit or
    /// mount are found as they were before or after.
    #[tactic(auto, using(crate::proofs::Cutting::mount_calls_are))]
    pub fn mount<D: Disk>(
        alloc: Global,
        config: &Config,
        site: SiteId,
        disk: &mut D,
    ) -> Result<SitePacks, MountFault>
        requires settled { IsSettled (D.moment disk.old) }
        requires area { areas_end (length (groups_at config.now site)) ≤ length (D.moment disk.old).seen }

        // The packs stand on the disk, and their copies are those that the disk had before.
        ensures stands { IfOk result (λ packs. Stand packs (D.moment disk.new)) }
        ensures site { IfOk result (λ packs. packs.site ≡ site) }
        ensures groups { IfOk result (λ packs. groups_of packs ≡ groups_at config.now site) }
        ensures copies { OnOk result (copies_on (groups_at config.now site) (D.moment disk.new).seen ≡ copies_on (groups_at config.now site) (D.moment disk.old).seen) }

        // They mount exactly where each is sound, but for want of memory and a failing disk.
        ensures sound { OnOk result (AreSound site (groups_at config.now site) (D.moment disk.old).seen) }
        ensures fault { IfErr result (λ fault. IsCause site (groups_at config.now site) (D.moment disk.old).seen fault) }
        ensures mounts { AreSound site (groups_at config.now site) (D.moment disk.old).seen → IfErr result (λ fault. IsPassing fault) }

        // Whenever a crash comes, nothing is lost.
        ensures any_moment { AreSound site (groups_at config.now site) (D.moment disk.old).seen → LeavesOnly (D.moment disk.old) (D.moment disk.new) (KeepsCopies site (groups_at config.now site) (D.moment disk.old).seen) }

        ensures cause { HasCause (D.moment disk.old).faults (D.moment disk.new).faults (disk_answer result) }
        ensures tells { TellsMount (mount_calls (groups_at config.now site) (D.moment disk.old).seen) (D.moment disk.old).passing (D.moment disk.new).passing result }
        ensures calls { mount_calls (groups_at config.now site) (D.moment disk.old).seen ≡ 2 * length (both_open_on (groups_at config.now site) (D.moment disk.old).seen) }
        ensures none { OnOk result (both_open_on (groups_at config.now site) (D.moment disk.new).seen ≡ []) }

        // Where it tells so, a crash as it cuts off the call leaves just this.
        ensures how { (D.moment disk.new).how ≡ (D.moment disk.old).how }
        ensures cut { (passed : ℕ) → (D.moment disk.old).passing ≡ Exactly passed → OnErr (disk_answer result) (IsCutMount site (groups_at config.now site) (D.moment disk.old).how passed (D.moment disk.old).seen (D.moment disk.new).left) }
    {
        let groups = groups_at(alloc, config, site)?;
        let live = LiveMarks::none(alloc)?;
        let mut packs = Vec::new(alloc);
        mount_behind(alloc, disk, 0, site, groups.as_slice(), &mut packs)?;
        Ok(SitePacks { site, packs, live })
    }
}

/// Mounts the packs of these groups, whose areas stand from the nth one on, and adds them.
fn mount_behind<D: Disk>(
    alloc: Global,
    disk: &mut D,
    nth: u8,
    site: SiteId,
    groups: &[u8],
    packs: &mut Vec<Pack>,
) -> Result<(), MountFault>
    requires settled { IsSettled (D.moment disk.old) }
    requires area { areas_end (nth + length groups.now) ≤ length (D.moment disk.old).seen }
    requires few { nth + length groups.now ≤ 4 }
    ensures mounted { OnOk result (AreMounted nth site groups.now packs.old.items packs.new.items (D.moment disk.old) (D.moment disk.new)) }
    ensures any_moment { AreSoundBehind nth site groups.now (D.moment disk.old).seen → LeavesOnly (D.moment disk.old) (D.moment disk.new) (LeavesPacks nth site groups.now (D.moment disk.old).seen) }
    ensures fault { IfErr result (λ fault. IsCauseBehind nth site groups.now (D.moment disk.old).seen fault) }
    ensures cause { HasCause (D.moment disk.old).faults (D.moment disk.new).faults (disk_answer result) }
    ensures tells { TellsMount (2 * gates_behind nth groups.now (D.moment disk.old).seen) (D.moment disk.old).passing (D.moment disk.new).passing result }
    ensures how { (D.moment disk.new).how ≡ (D.moment disk.old).how }
    ensures cut { (passed : ℕ) → (D.moment disk.old).passing ≡ Exactly passed → OnErr (disk_answer result) (IsCutBehind nth groups.now (D.moment disk.old).how passed (D.moment disk.old).seen (D.moment disk.new).left) }
{
    if groups.is_empty() {
        return Ok(());
    }
    let pack = Pack::mount(alloc, disk, area_at(nth), groups[0], site)?;
    push_pack(packs, pack)?;
    mount_behind(alloc, disk, nth + 1, site, &groups[1..], packs)
}

/// Adds a pack.
fn push_pack(packs: &mut Vec<Pack>, pack: Pack) -> Result<(), NoMemory>
    ensures { OnOk result (packs.new.items ≡ packs.old.items ++ pack ∷ []) }
{
    packs.push(pack)?;
    Ok(())
}
