// The slots of all inodes.
ghost use Rattle.std.specs.Prelude.{◌≡◌, ℕ, ◌+◌, ◌-◌, ◌≤◌, false, Some, None, List, [], ◌∷◌, ◌++◌, length, slice_index_or, OnOk, IfOk, IfErr, IfSome};
ghost use Rattle.locus_ids.specs.Sizes.{inodes_max};
ghost use Rattle.disk_model.specs.Disk.{Goes, HasCause, TellsRead};
ghost use Rattle.disk_model.specs.Images.{bytes_at, Same};
ghost use Rattle.pack_layout.specs.Layout.{layout, area_length, slot_at};
ghost use Rattle.pack_layout.specs.declared.half.Half.TheVariants.{First, Second};
ghost use Rattle.pack_slots.specs.Copies.{copy_of};
ghost use Rattle.pack_slots.specs.Slots.{IsGoodInode};
ghost use Rattle.pack_slots.specs.Mounting.{IsPassing, disk_answer};
ghost use Rattle.pack_slots.specs.Losing.{AreSlotsFound};
ghost use Rattle.pack_slots.specs.Tables.{IsUnread};
ghost use Rattle.pack_slots.specs.Found.{copy_in, is_beside, copy_kept, loses_kept, first_bad};
ghost use Rattle.pack_slots.specs.NextInode.{AddsInode};

use crate::slots::{Found, are_shut, read_both, read_slots};
use crate::{InodeCopy, MountFault};
use disk_model::Disk;
use locus_ids::sizes::INODES;
use locus_ids::{Ino, NoMemory};
use pack_layout::layout::SLOT_LENGTH;
use pack_layout::{BadSlot, nth_inode};
use std::alloc::Global;

/// What the slots of all inodes say.
#[derive(Drop)]
pub(crate) struct Inodes {
    /// The version of each inode that counts, that of inode 1 first.
    pub copies: Vec<Option<InodeCopy>>,
    /// Whether the inode's other slot is open too.
    pub losing: Vec<bool>,
    /// The first inode with a bad slot. What those from it on say isn't kept.
    pub bad: Option<u16>,
}

impl Inodes {
    /// Adds what the slots of the next inode say.
    fn push(&mut self, found: Found) -> Result<(), NoMemory>
        ensures copies { OnOk result (self.new.copies.items ≡ self.old.copies.items ++ copy_in found ∷ []) }
        ensures losing { OnOk result (self.new.losing.items ≡ self.old.losing.items ++ is_beside found ∷ []) }
        ensures bad { self.new.bad ≡ self.old.bad }
    {
        let loses = found.is_beside();
        self.copies.push(found.copy())?;
        self.losing.push(loses)?;
        Ok(())
    }

    /// Adds that no slot of the next inode is open.
    #[inline]
    fn push_none(&mut self) -> Result<(), NoMemory>
        ensures copies { OnOk result (self.new.copies.items ≡ self.old.copies.items ++ None ∷ []) }
        ensures losing { OnOk result (self.new.losing.items ≡ self.old.losing.items ++ false ∷ []) }
        ensures bad { self.new.bad ≡ self.old.bad }
    {
        self.copies.push(None)?;
        self.losing.push(false)?;
        Ok(())
    }

    /// Adds what was read of the slots of the next inode.
    #[cold]
    #[inline(never)]
    fn add(&mut self, ino: u16, read: Result<Found, BadSlot>) -> Result<(), NoMemory>
        ensures copies { OnOk result (self.new.copies.items ≡ self.old.copies.items ++ copy_kept self.old.bad read ∷ []) }
        ensures losing { OnOk result (self.new.losing.items ≡ self.old.losing.items ++ loses_kept self.old.bad read ∷ []) }
        ensures bad { OnOk result (self.new.bad ≡ first_bad self.old.bad ino read) }
    {
        if self.bad.is_some() {
            return self.push(Found::Nothing);
        }
        match read {
            Ok(found) => self.push(found),
            Err(_) => {
                self.bad = Some(ino);
                self.push(Found::Nothing)
            }
        }
    }

    /// Adds what the bytes of the slots of the next inode say. Of nearly all inodes no slot is open.
    #[inline]
    fn add_next(
        &mut self,
        alloc: Global,
        ino: Ino,
        first: &[u8; SLOT_LENGTH],
        second: &[u8; SLOT_LENGTH],
    ) -> Result<(), NoMemory>
        ensures { OnOk result ((base : ℕ) (image : List ℕ) → first.now ≡ bytes_at image (slot_at base ino First) layout.slot_length → second.now ≡ bytes_at image (slot_at base ino Second) layout.slot_length → AddsInode base ino image self.old self.new) }
    {
        if are_shut(first, second) {
            self.push_none()?;
            return Ok(());
        }
        let read = read_both(alloc, ino, first, second);
        self.add(ino.get(), read)?;
        Ok(())
    }
}

/// Reads the slots of all inodes, also behind a bad one.
pub(crate) fn read_inodes<D: Disk>(
    alloc: Global,
    disk: &mut D,
    base: u32,
) -> Result<Inodes, MountFault>
    requires { base + area_length ≤ length (D.moment disk.old).seen }
    ensures found { IfOk result (λ read. read.bad ≡ None → AreSlotsFound base inodes_max (D.moment disk.old).seen read.copies.items read.losing.items) }
    ensures before { IfOk result (λ read. (bad : ℕ) → read.bad ≡ Some bad → (1 ≤ bad) × (bad ≤ inodes_max) × (IsGoodInode base bad (D.moment disk.old).seen → ⊥) × AreSlotsFound base (bad - 1) (D.moment disk.old).seen read.copies.items read.losing.items × ((ino : ℕ) → bad ≤ ino → copy_of read.copies.items ino ≡ None)) }
    ensures unread { IfOk result (λ read. (i : ℕ) → IfSome (slice_index_or read.copies.items i None) IsUnread) }
    ensures copies { IfOk result (λ read. length read.copies.items ≡ inodes_max) }
    ensures losing { IfOk result (λ read. length read.losing.items ≡ inodes_max) }
    ensures fault { IfErr result (λ fault. IsPassing fault) }
    ensures seen { (D.moment disk.new).seen ≡ (D.moment disk.old).seen }
    ensures crash { Goes Same (D.moment disk.old) (D.moment disk.new) }
    ensures cause { HasCause (D.moment disk.old).faults (D.moment disk.new).faults (disk_answer result) }
    ensures tells { TellsRead (D.moment disk.old).passing (D.moment disk.new).passing (disk_answer result) }
    ensures how { (D.moment disk.new).how ≡ (D.moment disk.old).how }
{
    let copies = Vec::with_capacity(alloc, INODES as usize)?;
    let losing = Vec::with_capacity(alloc, INODES as usize)?;
    let mut inodes = Inodes {
        copies,
        losing,
        bad: None,
    };
    for i in 0..INODES {
        let ino = nth_inode(i);
        let mut first = [0; SLOT_LENGTH];
        let mut second = [0; SLOT_LENGTH];
        read_slots(disk, base, ino, &mut first, &mut second)?;
        inodes.add_next(alloc, ino, &first, &second)?;
    }
    Ok(inodes)
}
