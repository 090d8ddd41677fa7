// Whether the site may keep a version, and where.
ghost use Rattle.std.specs.Prelude.{◌≡◌, ◌↔◌, ◌≤◌, ◌<◌, ℕ, true, length, slice_index, IfSome, IfNone};
ghost use Rattle.pack_layout.specs.of_stored_versions.Versions.{IsStamp, AgreesWith, IsVersion};
ghost use Rattle.site_packs.specs.Committing.{IsWholeFit};
ghost use Rattle.site_packs.specs.Planning.{IsPlan};

use crate::{NewVersion, SitePacks};
use locus_ids::sizes::{CONTENT_BYTES, SITES};
use locus_ids::{FileId, Ino, Stamp};

/// Where a version is to be stored: the place of the pack, and the inode.
#[derive(Drop)]
pub(crate) struct Plan {
    pub at: usize,
    pub ino: Ino,
}

impl SitePacks {
    /// Where a version of a file with so many bytes is to be stored, or `None` exactly where the site may not keep it.
    pub(crate) fn plan(&self, file: FileId, version: &NewVersion, size: usize) -> Option<Plan>
        ensures some { IfSome result (λ plan. IsPlan self.now file version.now size plan) }
        ensures none { IfNone result (IsWholeFit self.now file version.now size → ⊥) }
    {
        let Some(at) = self.place_of(file.group) else {
            return None;
        };
        let Some(ino) = Ino::new(file.ino) else {
            return None;
        };
        if !is_version(version, size) {
            return None;
        }
        Some(Plan { at, ino })
    }
}

/// A slot may say so of a version with so many bytes.
fn is_version(version: &NewVersion, size: usize) -> bool
    ensures { (result ≡ true) ↔ IsVersion version.now size }
{
    if version.set.0 == 0 {
        return false;
    }
    if size > CONTENT_BYTES {
        return false;
    }
    is_named(version.stamp, &version.vector.parts())
}

/// The stamp is one of a version, and the counters agree with it.
fn is_named(stamp: Stamp, counters: &[u32; SITES]) -> bool
    ensures { (result ≡ true) ↔ (IsStamp stamp × AgreesWith stamp counters.now) }
{
    if stamp.site == 0 {
        return is_unmade(stamp.n, counters);
    }
    if stamp.site > SITES as u8 {
        return false;
    }
    is_counted(stamp.n, counters[usize::from(stamp.site) - 1])
}

/// Nothing was committed.
fn is_unmade(n: u32, counters: &[u32; SITES]) -> bool
    ensures { (result ≡ true) ↔ ((n ≡ 0) × ((i : ℕ) → slice_index counters.now i ≡ 0)) }
{
    if n != 0 {
        return false;
    }
    are_zero(counters)
}

/// The number is the counter, and not 0.
fn is_counted(n: u32, counter: u32) -> bool
    ensures { (result ≡ true) ↔ ((1 ≤ n) × (counter ≡ n)) }
{
    if n == 0 {
        return false;
    }
    counter == n
}

/// Each counter is 0.
fn are_zero(counters: &[u32; SITES]) -> bool
    ensures { (result ≡ true) ↔ ((i : ℕ) → slice_index counters.now i ≡ 0) }
{
    for i in 0..SITES {
        if counters[i] != 0 {
            return false;
        }
    }
    true
}
