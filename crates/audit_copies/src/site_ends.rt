// Where the versions of one site end among those of a file, which ascend by site.
ghost use Rattle.std.specs.Prelude.{◌≡◌, ◌==◌, ◌&&◌, ◌<◌, ◌≤◌, suc, ◌∷◌, length, map, drop, true, IfOk};
ghost use Rattle.std.specs.List.{list_all, slice_index_or};
ghost use Rattle.std.specs.List.Sorted.{IsPartitionedBy};
ghost use Rattle.commit_graph.specs.Versions.{is_stamp_below};
ghost use Rattle.past_laws.specs.of_promises.Past.{Copy};
ghost use Rattle.past_laws.specs.Agreement.{ascends};
ghost use Rattle.audit_versions.specs.Keeping.{has_number, tops};
ghost use Rattle.audit_copies.specs.Below.{IsSplit};

use crate::CopyRow;
use locus_ids::{NoMemory, Stamp, Stamps};
use std::alloc::Global;

/// Of versions in order the last of each site.
pub(crate) fn tops_of(alloc: Global, rows: &[CopyRow]) -> Result<Stamps, NoMemory>
    requires { ascends is_stamp_below (map (λ (v : Copy). v.stamp) rows.now) ≡ true }
    ensures { IfOk result (λ made. made ≡ tops (map (λ (v : Copy). v.stamp) rows.now)) }
{
    let mut made = Stamps::new(alloc);
    let mut at = 0;
    while at < rows.len() {
        let last = last_of_site(rows, at);
        made.push(stamp_at(rows, last))?;
        at = last + 1;
    }
    Ok(made)
}

/// Versions in order are numbered.
pub(crate) fn are_numbered(rows: &[CopyRow]) -> bool
    requires { ascends is_stamp_below (map (λ (v : Copy). v.stamp) rows.now) ≡ true }
    ensures { result ≡ list_all has_number (map (λ (v : Copy). v.stamp) rows.now) }
{
    let mut at = 0;
    while at < rows.len() {
        if !has_number(stamp_at(rows, at)) {
            return false;
        }
        at = last_of_site(rows, at) + 1;
    }
    true
}

fn has_number(stamp: Stamp) -> bool
    ensures { result ≡ has_number stamp }
{
    stamp.site == 0 || stamp.n != 0
}

/// Where the last version of the site stands whose first stands here. Only the first can be without a number.
fn last_of_site(rows: &[CopyRow], at: usize) -> usize
    requires inside { at < length rows.now }
    requires order { ascends is_stamp_below (map (λ (v : Copy). v.stamp) rows.now) ≡ true }
    ensures later { at ≤ result }
    ensures within { result < length rows.now }
    ensures top { (d : Copy) → tops (map (λ (v : Copy). v.stamp) (drop at rows.now)) ≡ (slice_index_or rows.now result d).stamp ∷ tops (map (λ (v : Copy). v.stamp) (drop (suc result) rows.now)) }
    ensures numbers { (d : Copy) → list_all has_number (map (λ (v : Copy). v.stamp) (drop at rows.now)) ≡ (has_number (slice_index_or rows.now at d).stamp && list_all has_number (map (λ (v : Copy). v.stamp) (drop (suc result) rows.now))) }
{
    at + many_of_site(&rows[at + 1..], stamp_at(rows, at).site)
}

/// How many are of the site, where these come first.
fn many_of_site(rows: &[CopyRow], site: u8) -> usize
    ensures within { result ≤ length rows.now }
    ensures split { IsPartitionedBy (λ (v : Copy). site == v.stamp.site) rows.now → IsSplit (λ (v : Copy). site == v.stamp.site) rows.now result }
{
    rows.partition_point(|row| site == row.stamp.site)
}

fn stamp_at(rows: &[CopyRow], at: usize) -> Stamp
    requires { at < length rows.now }
    ensures { (d : Copy) → result ≡ (slice_index_or rows.now at d).stamp }
{
    let row = rows[at];
    row.stamp
}
