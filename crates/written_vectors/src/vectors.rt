ghost use Rattle.std.specs.Prelude.{◌≡◌, ◌<◌, cond, length, reverse, IfOk};
ghost use Rattle.commit_graph.specs.Counters.{counter, greatest};
ghost use Rattle.commit_graph.specs.Vectors.{vector_of};
ghost use Rattle.commit_graph.specs.Versions.{is_version, same_file};
ghost use Rattle.written_vectors.specs.Counting.{counter_in, counter_on, counters_of};

use commit_graph::{History, Version};
use locus_ids::sizes::SITES;
use locus_ids::{FileId, ItemList, NoMemory, Stamp};
use std::alloc::Global;
use version_vector::Vector;

/// The written vector of the version of the file with this stamp, and zeros where there is none. For each of the sixteen
/// sites it walks through the history once, and from each version of the file back to its parents.
pub fn vector_of(
    alloc: Global,
    h: &History,
    file: FileId,
    stamp: Stamp,
) -> Result<Vector<SITES>, NoMemory>
    requires { length h.now < 4294967295 }
    ensures { IfOk result (λ made. made ≡ vector_of h.now file stamp) }
{
    let mut parts = [0; SITES];
    for place in 0..SITES {
        let site = place as u8 + 1;
        parts[place] = counter(alloc, h.oldest_first(), file, stamp, site)?;
    }
    Ok(Vector::from_parts(parts))
}

/// The counter of a site in the written vector of a version.
fn counter(
    alloc: Global,
    versions: &[Version],
    file: FileId,
    stamp: Stamp,
    site: u8,
) -> Result<u32, NoMemory>
    requires { length versions.now < 4294967295 }
    ensures { IfOk result (λ n. n ≡ counter (reverse versions.now) file stamp site) }
{
    let counters = counters_of(alloc, versions, file, site)?;
    Ok(counter_in(counters.as_slice(), versions, file, stamp))
}

/// The counters of all versions of the file, each beside its version.
fn counters_of(
    alloc: Global,
    versions: &[Version],
    file: FileId,
    site: u8,
) -> Result<ItemList<u32>, NoMemory>
    requires { length versions.now < 4294967295 }
    ensures value { IfOk result (λ made. reverse made ≡ counters_of file site (reverse versions.now)) }
    ensures long { IfOk result (λ made. length made ≡ length versions.now) }
{
    let mut made = ItemList::new(alloc);
    for place in 0..versions.len() {
        let n = counter_beside(
            &versions[..place],
            made.as_slice(),
            file,
            site,
            &versions[place],
        );
        made.push(n)?;
    }
    Ok(made)
}

/// What stands beside a version, where these stand beside those before it: its counter, and 0 where it is of another file.
fn counter_beside(
    older: &[Version],
    counters: &[u32],
    file: FileId,
    site: u8,
    version: &Version,
) -> u32
    requires few { length older.now < 4294967295 }
    requires long { length counters.now ≡ length older.now }
    requires before { reverse counters.now ≡ counters_of file site (reverse older.now) }
    ensures { result ≡ cond (same_file version.now.file file) (counter_on (reverse older.now) file site version.now) 0 }
{
    if !is_of(version, file) {
        return 0;
    }
    let most = greatest(older, counters, file, version.parents.as_slice());
    if version.site == site { most + 1 } else { most }
}

fn is_of(version: &Version, file: FileId) -> bool
    ensures { result ≡ same_file version.now.file file }
{
    version.file == file
}

/// The greatest of the numbers beside these versions of the file.
fn greatest(older: &[Version], counters: &[u32], file: FileId, stamps: &[Stamp]) -> u32
    requires { length counters.now ≡ length older.now }
    ensures { result ≡ greatest (counter_in (reverse counters.now) (reverse older.now) file) stamps.now }
{
    let mut most = 0;
    for stamp in stamps {
        let n = counter_in(counters, older, file, *stamp);
        if most < n {
            most = n;
        }
    }
    most
}

/// The number beside the newest version of the file with this stamp, and 0 where there is none.
fn counter_in(counters: &[u32], versions: &[Version], file: FileId, stamp: Stamp) -> u32
    requires { length counters.now ≡ length versions.now }
    ensures { result ≡ counter_in (reverse counters.now) (reverse versions.now) file stamp }
{
    let mut left = versions.len();
    while left > 0 {
        left -= 1;
        if is_version(&versions[left], file, stamp) {
            return counters[left];
        }
    }
    0
}

fn is_version(version: &Version, file: FileId, stamp: Stamp) -> bool
    ensures { result ≡ is_version file stamp version.now }
{
    version.file == file && version.stamp == stamp
}
