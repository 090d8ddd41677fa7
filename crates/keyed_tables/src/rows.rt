// Rows in ascending order of their keys: each call halves what is left to search.
ghost use Rattle.std.specs.Prelude.{◌≡◌, ℕ, ◌<◌, ◌≤◌, MatchResult, length, None, slice_get, slice_set, OnOk, OnErr, insert};
ghost use Rattle.std.specs.List.{remove};
ghost use Rattle.std.specs.Option.{option_copied};
ghost use Rattle.role_steps.specs.Tables.{row, with_row, without_row};
ghost use Rattle.keyed_tables.specs.Rising.{Rising};

use crate::Keyed;
use locus_ids::NoMemory;

/// Where the row of a key stands, or where it would come.
pub fn place_in<T: Keyed>(rows: &[T], key: u64) -> Result<usize, usize>
    requires rising { Rising T.key rows.now }
    ensures row { MatchResult result (λ i. (i < length rows.now) × (row T.key key rows.now ≡ slice_get rows.now i)) (λ i. (i ≤ length rows.now) × (row T.key key rows.now ≡ None)) }
    ensures with { (x : T) → T.key x ≡ key → MatchResult result (λ i. with_row T.key x rows.now ≡ slice_set rows.now i x) (λ i. with_row T.key x rows.now ≡ insert rows.now i x) }
    ensures without { MatchResult result (λ i. without_row T.key key rows.now ≡ remove rows.now i) (λ i. without_row T.key key rows.now ≡ rows.now) }
{
    let mut low = 0;
    let mut high = rows.len();
    while low < high {
        let mid = low + (high - low) / 2;
        let seen = &rows[mid];
        let here = seen.key();
        if here < key {
            low = mid + 1;
        } else if here == key {
            return Ok(mid);
        } else {
            high = mid;
        }
    }
    Err(low)
}

/// The row of a key.
pub fn find<T: Keyed>(rows: &[T], key: u64) -> Option<&T>
    requires rising { Rising T.key rows.now }
    ensures { option_copied result ≡ row T.key key rows.now }
{
    match place_in(rows, key) {
        Ok(i) => Some(&rows[i]),
        Err(_) => None,
    }
}

/// Brings a row to its place, in place of the one with its key. After `NoMemory` the rows are as they were.
pub fn put<T: Keyed + Drop>(rows: &mut Vec<T>, row: T) -> Result<(), NoMemory>
    requires { Rising T.key rows.old.items }
    ensures ok { OnOk result (rows.new.items ≡ with_row T.key row rows.old.items) }
    ensures err { OnErr result (rows.new.items ≡ rows.old.items) }
    ensures rising { Rising T.key rows.new.items }
{
    match place_in(rows, row.key()) {
        Ok(i) => rows[i] = row,
        Err(i) => rows.insert(i, row)?,
    }
    Ok(())
}
