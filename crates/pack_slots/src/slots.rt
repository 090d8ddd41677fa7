// The two slots of an inode.
ghost use Rattle.std.specs.Prelude.{◌≡◌, ◌≢◌, ℕ, ◌+◌, ◌≤◌, List, [], true, length, slice_index, Ok, OnOk, IfOk, IfErr, IfSome};
ghost use Rattle.disk_model.specs.Disk.{Goes, HasCause, TellsRead};
ghost use Rattle.disk_model.specs.Images.{bytes_at, Same};
ghost use Rattle.pack_layout.specs.declared.half.Half.TheVariants.{First, Second};
ghost use Rattle.pack_layout.specs.Layout.{layout, area_length, slot_at, open_gate};
ghost use Rattle.pack_slots.specs.Slots.{IsGoodInode, IsRead, IsSlotFound};
ghost use Rattle.pack_slots.specs.Found.{copy_in, is_beside};

use crate::InodeCopy;
use disk_model::{Disk, DiskFault};
use locus_ids::{Ino, ItemList};
use pack_layout::layout::SLOT_LENGTH;
use pack_layout::{BadSlot, Half, Slot, newer, read_slot, slot_at};
use std::alloc::Global;

/// The first byte of a slot that counts.
const OPEN_GATE: u8 = 0xA5;

/// What the two slots of an inode say.
#[derive(Drop)]
pub(crate) enum Found {
    /// No slot is open.
    Nothing,
    /// One slot is open.
    Alone(InodeCopy),
    /// Both slots are open, and this one counts.
    Beside(InodeCopy),
}

impl Found {
    /// The version that counts.
    pub fn copy(self) -> Option<InodeCopy>
        ensures { result ≡ copy_in self }
    {
        match self {
            Found::Nothing => None,
            Found::Alone(copy) => Some(copy),
            Found::Beside(copy) => Some(copy),
        }
    }

    /// Whether another slot is open beside it.
    pub fn is_beside(&self) -> bool
        ensures { result ≡ is_beside self.now }
    {
        match self {
            Found::Nothing => false,
            Found::Alone(_) => false,
            Found::Beside(_) => true,
        }
    }
}

/// What a slot says, whose tables aren't read yet.
fn slot_copy(alloc: Global, half: Half, slot: Slot) -> InodeCopy
    ensures { result ≡ record { half = half; slot = slot; more = [] } }
{
    InodeCopy {
        half,
        slot,
        more: ItemList::new(alloc),
    }
}

/// Of the open slots of an inode the one that counts, or `BadSlot` exactly where both are open with equal turns.
fn choose(alloc: Global, first: Option<Slot>, second: Option<Slot>) -> Result<Found, BadSlot>
    ensures found { (base ino : ℕ) (image : List ℕ) → IsRead ino (slot_at base ino First) image (Ok first) → IsRead ino (slot_at base ino Second) image (Ok second) → IfOk result (λ found. IsSlotFound base ino image (copy_in found) (is_beside found)) }
    ensures unread { IfOk result (λ found. IfSome (copy_in found) (λ copy. copy.more ≡ [])) }
    ensures bad { (base ino : ℕ) (image : List ℕ) → IsRead ino (slot_at base ino First) image (Ok first) → IsRead ino (slot_at base ino Second) image (Ok second) → IfErr result (λ _. IsGoodInode base ino image → ⊥) }
{
    match (first, second) {
        (None, None) => Ok(Found::Nothing),
        (Some(slot), None) => Ok(Found::Alone(slot_copy(alloc, Half::First, slot))),
        (None, Some(slot)) => Ok(Found::Alone(slot_copy(alloc, Half::Second, slot))),
        (Some(first), Some(second)) => match newer(&first, &second) {
            None => Err(BadSlot),
            Some(true) => Ok(Found::Beside(slot_copy(alloc, Half::Second, second))),
            Some(false) => Ok(Found::Beside(slot_copy(alloc, Half::First, first))),
        },
    }
}

/// Reads the bytes of a slot.
#[inline]
fn read_bytes<D: Disk>(
    disk: &mut D,
    base: u32,
    ino: Ino,
    half: Half,
    bytes: &mut [u8],
) -> Result<(), DiskFault>
    requires area { base + area_length ≤ length (D.moment disk.old).seen }
    requires long { length bytes.old ≡ layout.slot_length }
    ensures bytes { OnOk result (bytes.new ≡ bytes_at (D.moment disk.old).seen (slot_at base ino half) layout.slot_length) }
    ensures long { length bytes.new ≡ layout.slot_length }
    ensures seen { (D.moment disk.new).seen ≡ (D.moment disk.old).seen }
    ensures crash { Goes Same (D.moment disk.old) (D.moment disk.new) }
    ensures cause { HasCause (D.moment disk.old).faults (D.moment disk.new).faults result }
    ensures tells { TellsRead (D.moment disk.old).passing (D.moment disk.new).passing result }
    ensures how { (D.moment disk.new).how ≡ (D.moment disk.old).how }
{
    let _len = disk.len();
    disk.read(slot_at(base, ino, half), bytes)
}

/// Reads the bytes of both slots of an inode.
#[inline]
pub(crate) fn read_slots<D: Disk>(
    disk: &mut D,
    base: u32,
    ino: Ino,
    first: &mut [u8],
    second: &mut [u8],
) -> Result<(), DiskFault>
    requires area { base + area_length ≤ length (D.moment disk.old).seen }
    requires first { length first.old ≡ layout.slot_length }
    requires second { length second.old ≡ layout.slot_length }
    ensures first { OnOk result (first.new ≡ bytes_at (D.moment disk.old).seen (slot_at base ino First) layout.slot_length) }
    ensures second { OnOk result (second.new ≡ bytes_at (D.moment disk.old).seen (slot_at base ino Second) layout.slot_length) }
    ensures seen { (D.moment disk.new).seen ≡ (D.moment disk.old).seen }
    ensures crash { Goes Same (D.moment disk.old) (D.moment disk.new) }
    ensures cause { HasCause (D.moment disk.old).faults (D.moment disk.new).faults result }
    ensures tells { TellsRead (D.moment disk.old).passing (D.moment disk.new).passing result }
    ensures how { (D.moment disk.new).how ≡ (D.moment disk.old).how }
{
    read_bytes(disk, base, ino, Half::First, first)?;
    read_bytes(disk, base, ino, Half::Second, second)?;
    Ok(())
}

/// Whether neither of two slots is open.
#[inline]
pub(crate) fn are_shut(first: &[u8; SLOT_LENGTH], second: &[u8; SLOT_LENGTH]) -> bool
    ensures { result ≡ true → (slice_index first.now 0 ≢ open_gate) × (slice_index second.now 0 ≢ open_gate) }
{
    first[0] != OPEN_GATE && second[0] != OPEN_GATE
}

/// What the bytes of both slots of an inode say. `BadSlot` comes exactly where one of them is bad, or both count.
pub(crate) fn read_both(
    alloc: Global,
    ino: Ino,
    first: &[u8; SLOT_LENGTH],
    second: &[u8; SLOT_LENGTH],
) -> Result<Found, BadSlot>
    ensures found { (base : ℕ) (image : List ℕ) → first.now ≡ bytes_at image (slot_at base ino First) layout.slot_length → second.now ≡ bytes_at image (slot_at base ino Second) layout.slot_length → IfOk result (λ found. IsSlotFound base ino image (copy_in found) (is_beside found)) }
    ensures unread { IfOk result (λ found. IfSome (copy_in found) (λ copy. copy.more ≡ [])) }
    ensures bad { (base : ℕ) (image : List ℕ) → first.now ≡ bytes_at image (slot_at base ino First) layout.slot_length → second.now ≡ bytes_at image (slot_at base ino Second) layout.slot_length → IfErr result (λ _. IsGoodInode base ino image → ⊥) }
{
    let one = read_in(ino, first);
    let two = read_in(ino, second);
    both(alloc, one, two)
}

/// What the bytes of a slot say.
fn read_in(ino: Ino, bytes: &[u8; SLOT_LENGTH]) -> Result<Option<Slot>, BadSlot>
    ensures { (place : ℕ) (image : List ℕ) → bytes.now ≡ bytes_at image place layout.slot_length → IsRead ino place image result }
{
    read_slot(bytes, ino.get())
}

fn both(
    alloc: Global,
    first: Result<Option<Slot>, BadSlot>,
    second: Result<Option<Slot>, BadSlot>,
) -> Result<Found, BadSlot>
    ensures found { (base ino : ℕ) (image : List ℕ) → IsRead ino (slot_at base ino First) image first → IsRead ino (slot_at base ino Second) image second → IfOk result (λ found. IsSlotFound base ino image (copy_in found) (is_beside found)) }
    ensures unread { IfOk result (λ found. IfSome (copy_in found) (λ copy. copy.more ≡ [])) }
    ensures bad { (base ino : ℕ) (image : List ℕ) → IsRead ino (slot_at base ino First) image first → IsRead ino (slot_at base ino Second) image second → IfErr result (λ _. IsGoodInode base ino image → ⊥) }
{
    choose(alloc, first?, second?)
}
