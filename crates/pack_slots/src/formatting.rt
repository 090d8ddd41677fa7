// A new pack.
ghost use Rattle.std.specs.Prelude.{◌≡◌, ℕ, ◌+◌, ◌≤◌, ◌<◌, length, slice_index, true, OnOk};
ghost use Rattle.disk_model.specs.Disk.{Goes, IsSettled, HasCause};
ghost use Rattle.disk_model.specs.Images.{bytes_at, Torn};
ghost use Rattle.locus_ids.specs.Sites.{has};
ghost use Rattle.pack_layout.specs.Layout.{layout, area_length, tables_at, slot_bytes};
ghost use Rattle.disk_model.specs.Moments.{TellsMany};
ghost use Rattle.pack_slots.specs.Copies.{ShowsCopies};
ghost use Rattle.pack_slots.specs.Mounting.{IsSound};
ghost use Rattle.pack_slots.specs.Format.{piece_length, slot_pieces, format_calls, new_copy, root_slot, IsNew};

use crate::superblock::superblock;
use disk_model::{Disk, DiskFault};
use locus_ids::sizes::{CONTENT_TABLES, SLOT_PAGES};
use locus_ids::{Kind, SiteId, Sites, Stamp};
use pack_layout::layout::{BODY_LENGTH, SLOT_LENGTH, SLOTS_AT};
use pack_layout::{Slot, write_body};
use version_vector::Vector;

const OPEN_GATE: u8 = 0xA5;

/// The zeros that are written over slots at once.
const PIECE_LENGTH: usize = 16_384;

/// How many of them cover all slots.
const SLOT_PIECES: u32 = 128;

/// Makes the area from `base` a pack of the group at the site: it has the root directory, empty, stored at the sites of the
/// set, and nothing else. What the tables and the data pages hold stays.
pub fn format<D: Disk>(
    disk: &mut D,
    base: u32,
    group: u8,
    site: SiteId,
    set: Sites,
) -> Result<(), DiskFault>
    requires area { base + area_length ≤ length (D.moment disk.old).seen }
    requires stored { has set site ≡ true }
    ensures formatted { OnOk result (IsNew base group site set (D.moment disk.new).seen) }
    ensures sound { OnOk result (IsSound base group site (D.moment disk.new).seen) }
    ensures copies { OnOk result (ShowsCopies base (D.moment disk.new).seen (new_copy set)) }
    ensures outside { OnOk result (Torn base area_length (D.moment disk.old).seen (D.moment disk.new).seen) }
    ensures durable { OnOk result (IsSettled (D.moment disk.new)) }
    ensures crash { Goes (Torn base area_length) (D.moment disk.old) (D.moment disk.new) }
    ensures cause { HasCause (D.moment disk.old).faults (D.moment disk.new).faults result }
    ensures tells { TellsMany format_calls (D.moment disk.old).passing (D.moment disk.new).passing result }
{
    disk.write_at(base, &superblock(group, site))?;
    zero_slots(disk, base)?;
    write_root(disk, base, set)?;
    disk.sync()
}

/// Writes zeros over all slots.
fn zero_slots<D: Disk>(disk: &mut D, base: u32) -> Result<(), DiskFault>
    requires { base + area_length ≤ length (D.moment disk.old).seen }
    ensures zeros { OnOk result ((k : ℕ) → layout.slots_at ≤ k → k < tables_at → slice_index (D.moment disk.new).seen (base + k) ≡ 0) }
    ensures outside { OnOk result (Torn (base + layout.slots_at) layout.slots_length (D.moment disk.old).seen (D.moment disk.new).seen) }
    ensures crash { Goes (Torn (base + layout.slots_at) layout.slots_length) (D.moment disk.old) (D.moment disk.new) }
    ensures cause { HasCause (D.moment disk.old).faults (D.moment disk.new).faults result }
    ensures tells { TellsMany slot_pieces (D.moment disk.old).passing (D.moment disk.new).passing result }
{
    write_pieces(disk, base, &[0; PIECE_LENGTH])
}

/// Writes a piece of zeros over all slots, one time behind the other.
fn write_pieces<D: Disk>(disk: &mut D, base: u32, zeros: &[u8]) -> Result<(), DiskFault>
    requires area { base + area_length ≤ length (D.moment disk.old).seen }
    requires long { length zeros.now ≡ piece_length }
    requires zeros { (j : ℕ) → j < piece_length → slice_index zeros.now j ≡ 0 }
    ensures zeros { OnOk result ((k : ℕ) → layout.slots_at ≤ k → k < tables_at → slice_index (D.moment disk.new).seen (base + k) ≡ 0) }
    ensures outside { OnOk result (Torn (base + layout.slots_at) layout.slots_length (D.moment disk.old).seen (D.moment disk.new).seen) }
    ensures crash { Goes (Torn (base + layout.slots_at) layout.slots_length) (D.moment disk.old) (D.moment disk.new) }
    ensures cause { HasCause (D.moment disk.old).faults (D.moment disk.new).faults result }
    ensures tells { TellsMany slot_pieces (D.moment disk.old).passing (D.moment disk.new).passing result }
{
    let _len = disk.len();
    for i in 0..SLOT_PIECES {
        disk.write_at(base + SLOTS_AT + PIECE_LENGTH as u32 * i, zeros)?;
    }
    Ok(())
}

/// Writes the root directory into the first slot.
fn write_root<D: Disk>(disk: &mut D, base: u32, set: Sites) -> Result<(), DiskFault>
    requires { base + area_length ≤ length (D.moment disk.old).seen }
    ensures root { OnOk result (bytes_at (D.moment disk.new).seen (base + layout.slots_at) layout.slot_length ≡ slot_bytes (root_slot set)) }
    ensures outside { OnOk result (Torn (base + layout.slots_at) layout.slot_length (D.moment disk.old).seen (D.moment disk.new).seen) }
    ensures crash { Goes (Torn (base + layout.slots_at) layout.slot_length) (D.moment disk.old) (D.moment disk.new) }
    ensures cause { HasCause (D.moment disk.old).faults (D.moment disk.new).faults result }
    ensures tells { TellsMany 1 (D.moment disk.old).passing (D.moment disk.new).passing result }
{
    let _len = disk.len();
    disk.write_at(base + SLOTS_AT, &root_bytes(set))
}

fn root_bytes(set: Sites) -> [u8; SLOT_LENGTH]
    ensures { result ≡ slot_bytes (root_slot set) }
{
    let mut body = [0; BODY_LENGTH];
    write_body(&root(set), &mut body);
    let mut bytes = [OPEN_GATE; SLOT_LENGTH];
    bytes[1..].copy_from_slice(&body);
    bytes
}

/// The root directory of a new pack.
fn root(set: Sites) -> Slot
    ensures { result ≡ root_slot set }
{
    Slot {
        turn: 0,
        kind: Kind::Dir,
        ino: 1,
        set,
        size: 0,
        stamp: Stamp { site: 0, n: 0 },
        vector: Vector::zero(),
        pages: [0xFFFF; SLOT_PAGES],
        tables: [0xFFFF; CONTENT_TABLES],
    }
}
