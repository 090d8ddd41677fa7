use crate::Record;

/// A record with the number of its line, from 1.
#[derive(Drop)]
pub struct Entry {
    pub line: u32,
    pub what: Record,
}
