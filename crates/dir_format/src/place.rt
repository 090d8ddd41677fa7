ghost use Rattle.std.specs.Prelude.{◌≡◌};
ghost use Rattle.dir_format.specs.Entries.{with_entry};
ghost use Rattle.dir_format.specs.Places.{put_at, IsPlaceIn};

use crate::{Entry, entry_cmp};
use std::cmp::Ordering;

/// Where an entry goes.
#[derive(Clone, Copy)]
pub(crate) enum Place {
    /// Before the entries that stand from there on: none of them has its pair.
    Free(usize),
    /// In place of the entry that stands there.
    Taken(usize),
}

/// Where an entry goes in a list of entries in order.
pub(crate) fn place_of(entries: &[Entry], e: &Entry) -> Place
    ensures within { IsPlaceIn entries.now result }
    ensures value { put_at entries.now e.now result ≡ with_entry e.now entries.now }
{
    for (i, other) in entries.iter().enumerate() {
        match entry_cmp(e, other) {
            Ordering::Less => return Place::Free(i),
            Ordering::Equal => return Place::Taken(i),
            Ordering::Greater => {}
        }
    }
    Place::Free(entries.len())
}
