ghost use Rattle.std.specs.Prelude.{◌≡◌, ◌+◌, ◌-◌, ◌*◌, ◌≤◌, ◌++◌, ◌∷◌, length, take, drop, replicate};
ghost use Rattle.std.specs.List.{flat_map};
ghost use Rattle.std.specs.Int.{w16, w32, to_be_bytes};
ghost use Rattle.pack_layout.specs.Layout.{layout, kind_number, slot_bytes};

use crate::Slot;
use crate::layout::{
    BODY_LENGTH, COUNTER_LENGTH, FIELDS_LENGTH, INO_AT, NUMBER_LENGTH, PAGE_NUMBERS_AT, SET_AT,
    SITE_AT, SIZE_AT, STAMP_NUMBER_AT, TABLE_NUMBERS_AT, TURN_AT, VECTOR_AT,
};
use locus_ids::Kind;

/// The number of a kind.
fn number_of(kind: Kind) -> u8
    ensures { result ≡ kind_number kind }
{
    match kind {
        Kind::File => 1,
        Kind::Dir => 2,
    }
}

/// Writes a field behind those that stand before it.
fn put(out: &mut [u8], at: usize, field: &[u8])
    requires { at + length field.now ≤ length out.old }
    ensures { take (at + length field.now) out.new ≡ take at out.old ++ field.now }
{
    let end = at + field.len();
    out[at..end].copy_from_slice(field);
}

/// Writes the counters of all sites.
fn put_counters(out: &mut [u8], at: usize, counters: &[u32])
    requires { at + layout.counter_length * length counters.now ≤ length out.old }
    ensures { take (at + layout.counter_length * length counters.now) out.new ≡ take at out.old ++ flat_map (to_be_bytes w32) counters.now }
{
    for i in 0..counters.len() {
        put(out, at + COUNTER_LENGTH * i, &counters[i].to_be_bytes());
    }
}

/// Writes the numbers of pages or of tables.
pub(crate) fn put_pages(out: &mut [u8], at: usize, pages: &[u16])
    requires { at + layout.number_length * length pages.now ≤ length out.old }
    ensures { take (at + layout.number_length * length pages.now) out.new ≡ take at out.old ++ flat_map (to_be_bytes w16) pages.now }
{
    for i in 0..pages.len() {
        put(out, at + NUMBER_LENGTH * i, &pages[i].to_be_bytes());
    }
}

/// Writes a slot but for its gate and for the zeros at its end.
pub fn write_fields(slot: &Slot, out: &mut [u8])
    requires { length out.old ≡ layout.rest_at - 1 }
    ensures { out.new ++ replicate layout.rest_length 0 ≡ drop 1 (slot_bytes slot.now) }
{
    put(out, TURN_AT - 1, &[slot.turn, number_of(slot.kind)]);
    put(out, INO_AT - 1, &slot.ino.to_be_bytes());
    put(out, SET_AT - 1, &slot.set.0.to_be_bytes());
    put(out, SIZE_AT - 1, &slot.size.to_be_bytes());
    put(out, SITE_AT - 1, &[slot.stamp.site]);
    put(out, STAMP_NUMBER_AT - 1, &slot.stamp.n.to_be_bytes());
    put_counters(out, VECTOR_AT - 1, &slot.vector.parts());
    put_pages(out, PAGE_NUMBERS_AT - 1, &slot.pages);
    put_pages(out, TABLE_NUMBERS_AT - 1, &slot.tables);
}

/// Writes a slot but for its gate, which stands before the rest and is written by itself.
pub fn write_body(slot: &Slot, out: &mut [u8; BODY_LENGTH])
    ensures { out.new ≡ drop 1 (slot_bytes slot.now) }
{
    let mut body = [0; BODY_LENGTH];
    write_fields(slot, &mut body[..FIELDS_LENGTH]);
    *out = body;
}
