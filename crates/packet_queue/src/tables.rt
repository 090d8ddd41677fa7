// A table of one value.
ghost use Rattle.std.specs.Prelude.{◌≡◌, ℕ, ◌<◌, IfOk, vec_len, slice_index_or};

use locus_ids::NoMemory;
use std::alloc::Global;

/// A table is filled in pieces of so many values.
const PIECE: usize = 256;

/// A short table of one value.
fn resized<T: Copy + Drop>(alloc: Global, len: usize, value: T) -> Result<Vec<T>, NoMemory>
    ensures len { IfOk result (λ v. vec_len v ≡ len) }
    ensures all { IfOk result (λ v. (j : ℕ) (d : T) → j < len → slice_index_or v.items j d ≡ value) }
{
    let mut made = Vec::new(alloc);
    made.resize(len, value)?;
    Ok(made)
}

/// A table of one value.
pub fn filled<T: Copy + Drop>(alloc: Global, len: usize, value: T) -> Result<Vec<T>, NoMemory>
    ensures len { IfOk result (λ v. vec_len v ≡ len) }
    ensures all { IfOk result (λ v. (j : ℕ) (d : T) → j < len → slice_index_or v.items j d ≡ value) }
{
    let piece = resized(alloc, PIECE, value)?;
    let mut made = Vec::with_capacity(alloc, len)?;
    while made.len() < len {
        let count = PIECE.min(len - made.len());
        made.extend_from_slice(&piece[..count])?;
    }
    Ok(made)
}
