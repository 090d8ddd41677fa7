ghost use Rattle.std.specs.Prelude.{◌≡◌, IfOk, OnOk};
ghost use Rattle.role_steps.specs.Versions.{is_below, is_below_some, not_below, with_kept, stamps_of, joined_vectors, version_key};
ghost use Rattle.role_steps.specs.Opens.{is_stamp_among};

use keyed_tables::put_first;
use locus_ids::sizes::SITES;
use locus_ids::{NoMemory, Stamp, Stamps};
use role_steps::VersionRow;
use std::alloc::Global;
use version_vector::{Ordering4, Vector};

/// The vector is below the other: each counter is at most the other's, and they differ.
fn is_below(a: &Vector<SITES>, b: &Vector<SITES>) -> bool
    ensures { result ≡ is_below a.now b.now }
{
    matches!(a.compare(b), Ordering4::Below)
}

/// The version's vector is below that of another.
pub fn rises(old: &VersionRow, new: &VersionRow) -> bool
    ensures { result ≡ is_below old.now.vector new.now.vector }
{
    is_below(&old.vector, &new.vector)
}

fn is_below_some(version: &VersionRow, others: &[VersionRow]) -> bool
    ensures { result ≡ is_below_some version.now others.now }
{
    for other in others {
        if is_below(&version.vector, &other.vector) {
            return true;
        }
    }
    false
}

/// The versions whose vector isn't below this one's.
fn not_below(
    alloc: Global,
    version: &VersionRow,
    others: &[VersionRow],
) -> Result<Vec<VersionRow>, NoMemory>
    ensures { IfOk result (λ made. made.items ≡ not_below version.now others.now) }
{
    let mut made = Vec::new(alloc);
    for other in others {
        if !is_below(&other.vector, &version.vector) {
            made.push(*other)?;
        }
    }
    Ok(made)
}

/// One more version is brought or published: those stay whose vector is below that of no other, ascending by stamp.
pub fn keep(kept: &mut Vec<VersionRow>, version: &VersionRow) -> Result<(), NoMemory>
    ensures { OnOk result (kept.new.items ≡ with_kept version.now kept.old.items) }
{
    if is_below_some(version, kept) {
        return Ok(());
    }
    let mut left = not_below(*kept.allocator(), version, kept)?;
    put_first(&mut left, *version)?;
    *kept = left;
    Ok(())
}

/// The stamps of versions, in their order.
pub fn stamps_of(alloc: Global, versions: &[VersionRow]) -> Result<Stamps, NoMemory>
    ensures { IfOk result (λ made. made ≡ stamps_of versions.now) }
{
    let mut made = Stamps::new(alloc);
    for version in versions {
        made.push(version.stamp)?;
    }
    Ok(made)
}

/// A version of this stamp is among these.
pub fn has_stamp(versions: &[VersionRow], stamp: Stamp) -> bool
    ensures { result ≡ is_stamp_among stamp (stamps_of versions.now) }
{
    for version in versions {
        if version.stamp == stamp {
            return true;
        }
    }
    false
}

/// Counter by counter the greatest of all vectors.
pub fn joined_vectors(versions: &[VersionRow]) -> Vector<SITES>
    ensures { result ≡ joined_vectors versions.now }
{
    match versions {
        [] => Vector::zero(),
        [first, later @ ..] => first.vector.join(&joined_vectors(later)),
    }
}
