use crate::checks::holds;
use conflict_flags::{CopyTable, Event, Held, HeldList, TableFault, maxima, play, two_beside};
use locus_ids::{SiteId, Stamp};
use std::alloc::Global;
use std::process::Abort;
use version_vector::Vector;

fn site<R: Abort>(rt: &R, n: u8) -> SiteId {
    SiteId::new(n).expect(rt, "no site")
}

fn stamp(site: u8, n: u32) -> Stamp {
    Stamp { site, n }
}

fn vector(first: u32, second: u32, third: u32) -> Vector<16> {
    Vector::from_parts([first, second, third, 0, 0, 0, 0, 0, 0, 0, 0, 0, 0, 0, 0, 0])
}

fn copies<R: Abort>(rt: &R, alloc: Global, held: &[Held]) -> HeldList {
    let mut list = HeldList::new(alloc);
    for one in held {
        list.push(*one).expect(rt, "no memory");
    }
    list
}

#[test]
fn a_conflict_is_resolved(rt: HostRuntime) {
    let (one, two, three) = (site(&rt, 1), site(&rt, 2), site(&rt, 3));
    let mut table = CopyTable::new(rt.alloc());
    holds(&rt, table.commit(one) == Ok(stamp(1, 1)));
    holds(&rt, table.adopt(three, one) == Ok(true));
    holds(&rt, table.commit(one) == Ok(stamp(1, 2)));
    holds(&rt, table.commit(three) == Ok(stamp(3, 1)));
    holds(&rt, table.adopt(three, one) == Ok(false));
    holds(&rt, table.resolve(three) == Ok(stamp(3, 2)));
    let merged = Held {
        site: 3,
        stamp: stamp(3, 2),
        vector: vector(2, 0, 2),
    };
    holds(&rt, table.held(three) == Some(&merged));
    let last = table.history().get(3).expect(&rt, "no version");
    holds(
        &rt,
        last.parents.as_slice() == [stamp(1, 2), stamp(3, 1)].as_slice(),
    );
    holds(&rt, table.adopt(one, three) == Ok(true));
    holds(&rt, table.commit(two) == Err(TableFault::NoCopy));
    holds(&rt, table.resolve(two) == Err(TableFault::NoCopy));
    holds(&rt, table.history().len() == 4);
}

/// A version of the first site, the one before it, and one beside both.
fn new() -> Held {
    Held {
        site: 1,
        stamp: stamp(1, 2),
        vector: vector(2, 0, 0),
    }
}

fn old() -> Held {
    Held {
        site: 2,
        stamp: stamp(1, 1),
        vector: vector(1, 0, 0),
    }
}

fn other() -> Held {
    Held {
        site: 3,
        stamp: stamp(3, 1),
        vector: vector(1, 0, 1),
    }
}

#[test]
fn maxima_are_in_conflict(rt: HostRuntime) {
    let all = copies(&rt, rt.alloc(), &[other(), new(), old()]);
    let found = maxima(&all).expect(&rt, "no memory");
    holds(&rt, found.as_slice() == [new(), other()].as_slice());
    holds(&rt, two_beside(&all) == Some((stamp(1, 2), stamp(3, 1))));
    let line = copies(&rt, rt.alloc(), &[new(), old()]);
    let found = maxima(&line).expect(&rt, "no memory");
    holds(&rt, found.as_slice() == [new()].as_slice());
    holds(&rt, two_beside(&line) == None);
}

#[test]
fn events_are_played(rt: HostRuntime) {
    let (one, two) = (site(&rt, 1), site(&rt, 2));
    let events = [
        Event::Commit(one),
        Event::Adopt(two, one),
        Event::Commit(two),
        Event::Commit(one),
        Event::Resolve(two),
    ];
    let table = play(rt.alloc(), &events).expect(&rt, "no memory");
    holds(
        &rt,
        table.held(two).map(|held| held.stamp) == Some(stamp(2, 2)),
    );
}
