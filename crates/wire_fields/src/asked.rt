use trace_book::locus_ids::sizes::SITES;
use trace_book::{Op, Outcome};
use version_vector::Vector;

/// What is asked of an open instance.
#[derive(Drop)]
pub enum Asked {
    /// An operation, with the vector of an entry that a remove has seen.
    Op { op: Op, seen: Vector<SITES> },
    /// A read of bytes that the asking site has in its cache.
    Held { at: u32, len: u16 },
}

/// What an operation that was asked gave.
#[derive(Drop)]
pub enum Gave {
    Outcome { outcome: Outcome },
    /// So many bytes, which the asking site has.
    AsHeld { len: u16 },
}
