// A pack is found again on a disk.
ghost use Rattle.std.specs.Prelude.{◌≡◌, ℕ, ◌+◌, ◌≤◌, length, IfOk, IfErr, OnOk, OnErr};
ghost use Rattle.locus_ids.specs.Sizes.{inodes_max};
ghost use Rattle.disk_model.specs.Disk.{IsSettled, HasCause, Exactly};
ghost use Rattle.disk_model.specs.Moments.{LeavesOnly, TellsMany};
ghost use Rattle.pack_layout.specs.Layout.{area_length};
ghost use Rattle.pack_slots.specs.Copies.{AreCopies};
ghost use Rattle.pack_slots.specs.Mounting.{IsSound, IsCause, IsPassing, Recovers, KeepsPack, mount_calls, disk_answer};
ghost use Rattle.pack_slots.specs.Cutting.{IsCutMount};
ghost use Rattle.inode_pack.specs.Pack.{Stands};
ghost use Rattle.inode_pack.specs.Rows.{NoneAbove};

use crate::Pack;
use crate::data_pages::DataPages;
use disk_model::Disk;
use locus_ids::SiteId;
use locus_ids::sizes::INODES;
use pack_slots::{InodeCopy, MountFault, close_losing, read_pack};
use std::alloc::Global;

impl Pack {
    /// Mounts the pack of a group at a site whose area begins at `base`. Each slot is read once. Where both slots of an inode
    /// are open, the gate of the one that doesn't count is closed, inodes ascending, after all faults are ruled out. A pack
    /// that a crash left within a format, commit or mount is found as it was before or after.
    pub fn mount<D: Disk>(
        alloc: Global,
        disk: &mut D,
        base: u32,
        group: u8,
        site: SiteId,
    ) -> Result<Pack, MountFault>
        requires settled { IsSettled (D.moment disk.old) }
        requires area { base + area_length ≤ length (D.moment disk.old).seen }

        // The pack stands on the disk, and its copies are the view that the image had before.
        ensures stands { IfOk result (λ pack. Stands pack (D.moment disk.new)) }
        ensures base { IfOk result (λ pack. pack.base ≡ base) }
        ensures group { IfOk result (λ pack. pack.group ≡ group) }
        ensures site { IfOk result (λ pack. pack.site ≡ site) }
        ensures recovered { IfOk result (λ pack. Recovers base (D.moment disk.old).seen pack.copies) }
        ensures copies { IfOk result (λ pack. AreCopies pack.copies) }

        // It mounts exactly where the image is sound, but for want of memory and a failing disk.
        ensures sound { OnOk result (IsSound base group site (D.moment disk.old).seen) }
        ensures fault { IfErr result (λ fault. IsCause base group site (D.moment disk.old).seen fault) }
        ensures mounts { IsSound base group site (D.moment disk.old).seen → IfErr result (λ fault. IsPassing fault) }

        // Whenever a crash comes, nothing is lost.
        ensures any_moment { LeavesOnly (D.moment disk.old) (D.moment disk.new) (KeepsPack base group site (D.moment disk.old).seen) }

        ensures cause { HasCause (D.moment disk.old).faults (D.moment disk.new).faults (disk_answer result) }
        ensures tells { TellsMany (mount_calls base (D.moment disk.old).seen result) (D.moment disk.old).passing (D.moment disk.new).passing (disk_answer result) }

        // Where it tells so, a crash as it cuts off the call leaves just this.
        ensures how { (D.moment disk.new).how ≡ (D.moment disk.old).how }
        ensures cut { (passed : ℕ) → (D.moment disk.old).passing ≡ Exactly passed → OnErr (disk_answer result) (IsCutMount base group site (D.moment disk.old).how passed (D.moment disk.old).seen (D.moment disk.new).left) }
    {
        let survey = read_pack(alloc, disk, base, group, site)?;
        close_losing(disk, base, &survey.copies, &survey.losing)?;
        let last = last_with_copy(&survey.copies);
        Ok(Pack {
            base,
            group,
            site,
            copies: survey.copies,
            last,
            pages: DataPages::new(survey.uses, survey.free),
        })
    }
}

/// The greatest inode with a copy, or 0.
fn last_with_copy(copies: &[Option<InodeCopy>]) -> u16
    requires { length copies.now ≡ inodes_max }
    ensures { NoneAbove result copies.now }
{
    let mut last = 0;
    for i in 0..INODES {
        if copies[usize::from(i)].is_some() {
            last = i + 1;
        }
    }
    last
}
