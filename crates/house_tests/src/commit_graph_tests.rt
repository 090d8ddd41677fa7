use crate::checks::holds;
use commit_graph::{History, Version, is_ancestor, kept};
use locus_ids::{Bytes, FileId, Stamp, Stamps};
use std::alloc::Global;
use std::process::Abort;

const FILE: FileId = FileId { group: 0, ino: 2 };

fn stamps<R: Abort>(rt: &R, alloc: Global, names: &[(u8, u32)]) -> Stamps {
    let mut made = Stamps::new(alloc);
    for (site, n) in names {
        made.push(Stamp { site: *site, n: *n })
            .expect(rt, "no memory");
    }
    made
}

fn version<R: Abort>(
    rt: &R,
    alloc: Global,
    file: FileId,
    (site, n): (u8, u32),
    parents: &[(u8, u32)],
) -> Version {
    Version {
        file,
        site,
        stamp: Stamp { site, n },
        parents: stamps(rt, alloc, parents),
        content: Bytes::new(alloc),
    }
}

/// A version of the file is committed.
fn add<R: Abort>(rt: &R, alloc: Global, h: &mut History, stamp: (u8, u32), parents: &[(u8, u32)]) {
    h.push(version(rt, alloc, FILE, stamp, parents))
        .expect(rt, "no memory");
}

/// Site 1 commits, site 3 takes it and is cut off; both commit, and site 3 merges.
fn merged<R: Abort>(rt: &R, alloc: Global) -> History {
    let mut h = History::new(alloc);
    add(rt, alloc, &mut h, (1, 1), &[]);
    add(rt, alloc, &mut h, (1, 2), &[(1, 1)]);
    add(rt, alloc, &mut h, (3, 1), &[(1, 1)]);
    let other = FileId { group: 0, ino: 3 };
    h.push(version(rt, alloc, other, (3, 1), &[(1, 2)]))
        .expect(rt, "no memory");
    add(rt, alloc, &mut h, (3, 2), &[(1, 2), (3, 1)]);
    h
}

/// Whether the first of two versions of the file is an ancestor of the other one.
fn descends<R: Abort>(rt: &R, alloc: Global, h: &History, low: (u8, u32), high: (u8, u32)) -> bool {
    let low = Stamp {
        site: low.0,
        n: low.1,
    };
    let high = Stamp {
        site: high.0,
        n: high.1,
    };
    is_ancestor(alloc, h, FILE, low, high).expect(rt, "no memory")
}

/// Those of these versions that are kept.
fn left<R: Abort>(rt: &R, alloc: Global, h: &History, brought: &[(u8, u32)]) -> Stamps {
    let brought = stamps(rt, alloc, brought);
    kept(alloc, h, FILE, &brought).expect(rt, "no memory")
}

#[test]
fn ancestors_are_found(rt: HostRuntime) {
    let alloc = rt.alloc();
    let h = merged(&rt, alloc).copy().expect(&rt, "no memory");
    for (low, high, wanted) in [
        ((1, 1), (3, 2), true),
        ((1, 2), (3, 2), true),
        ((1, 2), (3, 1), false),
        ((3, 2), (1, 1), false),
        ((3, 1), (3, 1), true),
        ((2, 1), (2, 1), true),
        ((2, 1), (3, 2), false),
    ] {
        holds(&rt, descends(&rt, alloc, &h, low, high) == wanted);
    }
}

#[test]
fn the_newest_are_kept(rt: HostRuntime) {
    let alloc = rt.alloc();
    let h = merged(&rt, alloc);
    holds(&rt, (h.len(), h.is_empty()) == (5, false));
    holds(&rt, h.get(1).is_some() && h.get(5).is_none());
    let left = left(&rt, alloc, &h, &[(1, 1), (1, 2), (3, 1)]);
    let wanted = stamps(&rt, alloc, &[(1, 2), (3, 1)]);
    holds(&rt, left.as_slice() == wanted.as_slice());
}

#[test]
fn a_long_history_is_walked_once(rt: HostRuntime) {
    let alloc = rt.alloc();
    let mut h = History::new(alloc);
    add(&rt, alloc, &mut h, (1, 1), &[]);
    add(&rt, alloc, &mut h, (2, 1), &[(1, 1)]);
    for n in 2..=5_000 {
        add(&rt, alloc, &mut h, (1, n), &[(1, n - 1), (2, n - 1)]);
        add(&rt, alloc, &mut h, (2, n), &[(1, n), (2, n - 1)]);
    }
    holds(&rt, descends(&rt, alloc, &h, (1, 1), (2, 5_000)));
    holds(&rt, !descends(&rt, alloc, &h, (3, 1), (2, 5_000)));
    let brought = [(1, 1), (2, 2_500), (1, 5_000), (2, 5_000), (3, 1)];
    let left = left(&rt, alloc, &h, &brought);
    let wanted = stamps(&rt, alloc, &[(2, 5_000), (3, 1)]);
    holds(&rt, left.as_slice() == wanted.as_slice());
}
