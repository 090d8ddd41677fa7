ghost use Rattle.std.specs.Prelude.{◌≡◌, ℕ, ◌≢◌, ◌↔◌, List, length, Result, Option, Ok, Some, None, IsErr, IfOk, slice_index};
ghost use Rattle.locus_ids.specs.Sizes.{sites_max, slot_pages, content_tables_max};
ghost use Rattle.field_codec.specs.Codec.{u16, u32, whole};
ghost use Rattle.field_codec.specs.Lists.{read_times};
ghost use Rattle.field_codec.specs.Reads.{Reads};
ghost use Rattle.pack_layout.specs.declared.slot.Slot.{Slot};
ghost use Rattle.pack_layout.specs.Layout.{layout, slot_bytes, IsSlot, open_gate};
ghost use Rattle.pack_layout.specs.Fields.{kinds, stamps, slots, repeated};

use crate::check::is_slot;
use crate::layout::{REST_LENGTH, SLOT_LENGTH};
use crate::{BadSlot, Slot};
use field_codec::{FieldFault, Fields};
use locus_ids::sizes::{CONTENT_TABLES, SITES, SLOT_PAGES};
use locus_ids::{Kind, Sites, Stamp};
use version_vector::Vector;

/// The first byte of a slot that counts.
const OPEN_GATE: u8 = 0xA5;

fn read_kind(fields: &mut Fields) -> Result<Kind, FieldFault>
    ensures { Reads kinds (λ kind. kind) fields.old result fields.new }
{
    let at = fields.at();
    match fields.get_u8()? {
        1 => Ok(Kind::File),
        2 => Ok(Kind::Dir),
        _ => Err(FieldFault::Range { at }),
    }
}

fn read_stamp(fields: &mut Fields) -> Result<Stamp, FieldFault>
    ensures { Reads stamps (λ stamp. stamp) fields.old result fields.new }
{
    let site = fields.get_u8()?;
    let n = fields.get_u32()?;
    Ok(Stamp { site, n })
}

fn read_counters(fields: &mut Fields) -> Result<[u32; SITES], FieldFault>
    ensures { Reads (repeated sites_max u32) (λ counters. counters) fields.old result fields.new }
{
    let mut counters = [0; SITES];
    for i in 0..SITES {
        counters[i] = fields.get_u32()?;
    }
    Ok(counters)
}

fn read_pages(fields: &mut Fields) -> Result<[u16; SLOT_PAGES], FieldFault>
    ensures { Reads (repeated slot_pages u16) (λ pages. pages) fields.old result fields.new }
{
    let mut pages = [0; SLOT_PAGES];
    for i in 0..SLOT_PAGES {
        pages[i] = fields.get_u16()?;
    }
    Ok(pages)
}

fn read_tables(fields: &mut Fields) -> Result<[u16; CONTENT_TABLES], FieldFault>
    ensures { Reads (repeated content_tables_max u16) (λ tables. tables) fields.old result fields.new }
{
    let mut tables = [0; CONTENT_TABLES];
    for i in 0..CONTENT_TABLES {
        tables[i] = fields.get_u16()?;
    }
    Ok(tables)
}

fn read_fields(fields: &mut Fields) -> Result<Slot, FieldFault>
    ensures { Reads slots (λ slot. slot) fields.old result fields.new }
{
    fields.exactly(&[OPEN_GATE])?;
    let turn = fields.u8_in(0, 2)?;
    let kind = read_kind(fields)?;
    let ino = fields.get_u16()?;
    let set = Sites(fields.get_u16()?);
    let size = fields.get_u32()?;
    let stamp = read_stamp(fields)?;
    let vector = Vector::from_parts(read_counters(fields)?);
    let pages = read_pages(fields)?;
    let tables = read_tables(fields)?;
    fields.zeros(REST_LENGTH)?;
    Ok(Slot {
        turn,
        kind,
        ino,
        set,
        size,
        stamp,
        vector,
        pages,
        tables,
    })
}

fn read_whole(bytes: &[u8]) -> Result<Slot, FieldFault>
    requires { length bytes.now ≡ layout.slot_length }
    ensures exact { result ≡ whole slots bytes.now }
    ensures found { IfOk result (λ slot. bytes.now ≡ slot_bytes slot) }
{
    read_all(bytes)
}

fn read_all(bytes: &[u8]) -> Result<Slot, FieldFault>
    requires { length bytes.now ≡ layout.slot_length }
    ensures { result ≡ whole slots bytes.now }
{
    let mut fields = Fields::new(bytes);
    let slot = read_fields(&mut fields)?;
    fields.end()?;
    Ok(slot)
}

/// The slot of an inode that stands in these bytes: `None` exactly where its gate isn't open, `BadSlot` exactly where it
/// is and the bytes are none of a slot of that inode.
pub fn read_slot(bytes: &[u8; SLOT_LENGTH], ino: u16) -> Result<Option<Slot>, BadSlot>
    ensures closed { (result ≡ Ok None) ↔ (slice_index bytes.now 0 ≢ open_gate) }
    ensures slot { (s : Slot) → (result ≡ Ok (Some s)) ↔ ((bytes.now ≡ slot_bytes s) × IsSlot s × (s.ino ≡ ino)) }
    ensures bad { IsErr result ↔ ((slice_index bytes.now 0 ≡ open_gate) × ((s : Slot) → bytes.now ≡ slot_bytes s → IsSlot s → s.ino ≡ ino → ⊥)) }
{
    if bytes[0] != OPEN_GATE {
        return Ok(None);
    }
    let Ok(slot) = read_whole(bytes) else {
        return Err(BadSlot);
    };
    if slot.ino == ino && is_slot(&slot) {
        Ok(Some(slot))
    } else {
        Err(BadSlot)
    }
}
