// Short tables, in which each row is looked at in turn. Nothing is asked of their order.
ghost use Rattle.std.specs.Prelude.{◌≡◌, ℕ, ◌<◌, ◌≤◌, MatchResult, length, slice_set, OnOk, OnErr, insert};
ghost use Rattle.std.specs.Option.{option_copied};
ghost use Rattle.role_steps.specs.Tables.{row, with_row};

use crate::Keyed;
use locus_ids::NoMemory;

/// The row of a key.
pub fn find_first<T: Keyed>(rows: &[T], key: u64) -> Option<&T>
    ensures { option_copied result ≡ row T.key key rows.now }
{
    for i in 0..rows.len() {
        let seen = &rows[i];
        if seen.key() == key {
            return Some(seen);
        }
    }
    None
}

/// Where the row of a key would be replaced, or where it would come.
fn place_first<T: Keyed>(rows: &[T], key: u64) -> Result<usize, usize>
    ensures within { MatchResult result (λ i. i < length rows.now) (λ i. i ≤ length rows.now) }
    ensures with { (x : T) → T.key x ≡ key → MatchResult result (λ i. with_row T.key x rows.now ≡ slice_set rows.now i x) (λ i. with_row T.key x rows.now ≡ insert rows.now i x) }
{
    for i in 0..rows.len() {
        let seen = &rows[i];
        let here = seen.key();
        if here == key {
            return Ok(i);
        }
        if key < here {
            return Err(i);
        }
    }
    Err(rows.len())
}

/// Brings a row to its place, in place of the one with its key. After `NoMemory` the rows are as they were.
pub fn put_first<T: Keyed + Drop>(rows: &mut Vec<T>, row: T) -> Result<(), NoMemory>
    ensures ok { OnOk result (rows.new.items ≡ with_row T.key row rows.old.items) }
    ensures err { OnErr result (rows.new.items ≡ rows.old.items) }
{
    match place_first(rows, row.key()) {
        Ok(i) => rows[i] = row,
        Err(i) => rows.insert(i, row)?,
    }
    Ok(())
}
