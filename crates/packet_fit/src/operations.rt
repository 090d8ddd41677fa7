ghost use Rattle.std.specs.Prelude.{◌↔◌, IsTrue, length};
ghost use Rattle.field_codec.specs.Codec.{pair};
ghost use Rattle.field_codec.specs.Shapes.{IsInRange};
ghost use Rattle.wire_fields.specs.Parts.{inodes, sizes, kinds, vectors, no_vector, names, components};
ghost use Rattle.wire_fields.specs.declared.asked.Gave.TheVariants as Gave;
ghost use Rattle.wire_fields.specs.Operations.{seeing_fields, outcome_fields, what_fields, writes, reads, inserts, data_bytes};

use crate::fields::{
    is_component_field, is_inode, is_name_field, is_no_vector, is_size, is_stamp, is_vector,
};
use crate::refusals::is_refusal;
use locus_ids::sizes::{FILE_BYTES, SITES};
use locus_ids::{Bytes, Kind};
use trace_book::{Op, Outcome, What};
use version_vector::Vector;

/// 1 to 4,096 bytes that are written at a place and end with 65,536 at most.
fn is_write(at: u32, bytes: &Bytes) -> bool
    ensures { IsTrue result ↔ writes.Fits (at, bytes.now) }
{
    is_size(at)
        && 1 <= bytes.len()
        && bytes.len() <= 4_096
        && bytes.len() + at as usize <= FILE_BYTES
}

pub fn is_read(at: u32, len: u16) -> bool
    ensures { IsTrue result ↔ reads.Fits (at, len) }
{
    is_size(at) && len <= 4_096
}

pub fn is_kind(kind: Kind) -> bool
    ensures { IsTrue result ↔ kinds.Fits kind }
{
    match kind {
        Kind::File => true,
        Kind::Dir => true,
    }
}

fn is_insert(name: &Bytes, ino: u16, kind: Kind) -> bool
    ensures { IsTrue result ↔ inserts.Fits (name.now, (ino, kind)) }
{
    is_name_field(name) && is_inode(ino) && is_kind(kind)
}

fn is_probe(component: &Bytes, seen: &Vector<SITES>) -> bool
    ensures { IsTrue result ↔ (pair components no_vector).Fits (component.now, seen.now) }
{
    is_component_field(component) && is_no_vector(seen)
}

fn is_insert_op(name: &Bytes, ino: u16, kind: Kind, seen: &Vector<SITES>) -> bool
    ensures { IsTrue result ↔ (pair inserts no_vector).Fits ((name.now, (ino, kind)), seen.now) }
{
    is_insert(name, ino, kind) && is_no_vector(seen)
}

fn is_remove(name: &Bytes, ino: u16, seen: &Vector<SITES>) -> bool
    ensures { IsTrue result ↔ (pair (pair names inodes) vectors).Fits ((name.now, ino), seen.now) }
{
    is_name_field(name) && is_inode(ino) && is_vector(seen)
}

fn is_rename(component: &Bytes, name: &Bytes, seen: &Vector<SITES>) -> bool
    ensures { IsTrue result ↔ (pair (pair components names) no_vector).Fits ((component.now, name.now), seen.now) }
{
    is_component_field(component) && is_name_field(name) && is_no_vector(seen)
}

fn is_read_op(at: u32, len: u16, seen: &Vector<SITES>) -> bool
    ensures { IsTrue result ↔ (pair reads no_vector).Fits ((at, len), seen.now) }
{
    is_read(at, len) && is_no_vector(seen)
}

fn is_write_op(at: u32, bytes: &Bytes, seen: &Vector<SITES>) -> bool
    ensures { IsTrue result ↔ (pair writes no_vector).Fits ((at, bytes.now), seen.now) }
{
    is_write(at, bytes) && is_no_vector(seen)
}

fn is_cut(len: u32, seen: &Vector<SITES>) -> bool
    ensures { IsTrue result ↔ (pair sizes no_vector).Fits (len, seen.now) }
{
    is_size(len) && is_no_vector(seen)
}

/// An operation, with the vector of an entry that a remove has seen.
pub fn is_operation(op: &Op, seen: &Vector<SITES>) -> bool
    ensures { IsTrue result ↔ IsInRange (seeing_fields op.now seen.now) }
{
    match op {
        Op::Probe { name } => is_probe(name, seen),
        Op::Find { component } => is_probe(component, seen),
        Op::Insert { name, ino, kind } => is_insert_op(name, *ino, *kind, seen),
        Op::Remove { name, ino } => is_remove(name, *ino, seen),
        Op::Rename { component, name } => is_rename(component, name, seen),
        Op::Empty => is_no_vector(seen),
        Op::Read { at, len } => is_read_op(*at, *len, seen),
        Op::Write { at, bytes } => is_write_op(*at, bytes, seen),
        Op::Cut { len } => is_cut(*len, seen),
        Op::Commit => is_no_vector(seen),
        Op::Abort => is_no_vector(seen),
        Op::Mend => is_no_vector(seen),
    }
}

fn is_data(bytes: &Bytes) -> bool
    ensures { IsTrue result ↔ data_bytes.Fits bytes.now }
{
    bytes.len() < 65_536
}

pub fn is_found(ino: u16, kind: Kind) -> bool
    ensures { IsTrue result ↔ (pair inodes kinds).Fits (ino, kind) }
{
    is_inode(ino) && is_kind(kind)
}

/// What an operation gave, or its refusal.
pub fn is_outcome(outcome: &Outcome) -> bool
    ensures { IsTrue result ↔ IsInRange (outcome_fields (Gave.Outcome outcome.now)) }
{
    match outcome {
        Outcome::Done => true,
        Outcome::Data { bytes } => is_data(bytes),
        Outcome::Found { ino, kind } => is_found(*ino, *kind),
        Outcome::Committed { stamp } => is_stamp(*stamp),
        Outcome::No { why } => is_refusal(why),
    }
}

/// What a Look asks.
pub fn is_what(what: &What) -> bool
    ensures { IsTrue result ↔ IsInRange (what_fields what.now) }
{
    match what {
        What::Name { component } => is_component_field(component),
        What::List => true,
        What::Stat => true,
        What::Whole { stamp } => is_stamp(*stamp),
    }
}
